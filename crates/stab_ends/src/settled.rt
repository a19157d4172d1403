use crate::account::{RecvAccount, SendAccount};

/// Two accounts of one link that agree with one history.
#[derive(Debug, Drop)]
pub struct Settled {
    pub send: SendAccount,
    pub recv: RecvAccount,
}
