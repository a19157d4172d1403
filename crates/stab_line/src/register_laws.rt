//! Laws over the definitions alone. Each is a function with an empty body; its contract is the law.

ghost use Rattle.std.specs.Prelude.{◌≡◌, ℕ, ◌≤◌, List, [], map, Option, None};
ghost use Rattle.stab_line.specs.Ends.{ReceiverEnd, SenderEnd};
ghost use Rattle.stab_line.specs.Line.{LineAct, line_run, start_of};
ghost use Rattle.stab_line.specs.StartLaw.{LinkLawOfStart};
ghost use Rattle.stab_core.specs.LinkLaw.{LinkLaw, LinkLawWithin};
ghost use Rattle.stab_frames.specs.Parameters.{AreLawful, Parameters};
ghost use Rattle.stab_frames.specs.declared.frame.Frame.{Frame};
ghost use Rattle.stab_line.specs.Registers.{RegisterAct, Registers, line_of, new_registers};
ghost use Rattle.stab_line.specs.Registers.{register_run, shown};

/// A link over two registers is a line, for every capacity from 1 on: there are acts of the line
/// that lead it the same way. What an end has got counts as given.
pub fn registers_are_a_line()
    ensures { (p : Parameters) (r : Registers) (acts : List RegisterAct) → 1 ≤ p.capacity
        → (line_acts : List LineAct)
        × (line_run p (line_of p r) line_acts ≡ line_of p (register_run p r acts)) }
{}

/// So the link law holds of what two ends did over two registers, whatever these showed and
/// whatever the ends were when the count began.
pub fn registers_obey_the_link_law()
    ensures { (p : Parameters) (frame : Option Frame) (ack : Option ℕ) (sender : SenderEnd)
        (receiver : ReceiverEnd) (acts : List RegisterAct) → AreLawful p
        → let after = line_of p (register_run p (new_registers frame ack sender receiver) acts) in
        LinkLaw p.capacity (map (λ f. f.item) (shown frame)) after.offered after.acked
        after.delivered }
{}

/// So does the link law of their start. Where the registers were empty, no stray is delivered, and
/// of the acknowledged items only the first one can be missing.
pub fn registers_obey_the_law_of_their_start()
    ensures any { (p : Parameters) (frame : Option Frame) (ack : Option ℕ) (sender : SenderEnd)
        (receiver : ReceiverEnd) (acts : List RegisterAct) → AreLawful p
        → let after = line_of p (register_run p (new_registers frame ack sender receiver) acts) in
        LinkLawOfStart (start_of (shown frame) (shown ack) sender receiver) after.offered
        after.acked after.delivered }
    ensures empty { (p : Parameters) (sender : SenderEnd) (receiver : ReceiverEnd)
        (acts : List RegisterAct) → AreLawful p
        → let after = line_of p (register_run p (new_registers None None sender receiver) acts) in
        LinkLawWithin 0 1 [] after.offered after.acked after.delivered }
{}
