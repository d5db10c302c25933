//! The top call.
ghost use Rattle.std.specs.Prelude.{◌≡◌, ◌≢◌, ◌↔◌, ℕ, List};
ghost use Rattle.io_edges.specs.Causes.{Rose};
ghost use Rattle.host_machine.specs.Machine.{first_machine};
ghost use Rattle.stream_run.specs.Endings.{Ran};
ghost use Rattle.stream_run.specs.Lines.{lines};
ghost use Rattle.host_shell.specs.Carried.{AllCarry};
ghost use Rattle.host_shell.specs.Ends.{Ends, IsDoneOrMemory, IsWithin};
ghost use Rattle.host_shell.specs.Words.{wanted_of};

use crate::lines::serve_lines;
use crate::status::Status;
use crate::words::{Form, wanted};
use host_engine::Host;
use io_edges::{Sink, Source};
use plain_values::Val;
use std::alloc::Global;

/// The program: the lines of `commands` are answered on `out` as the words ask.
///
/// With the one word `scratch` they run on the empty object. Words of no form are `Usage`, and then neither object is called.
pub fn serve<C: Source, O: Sink>(
    alloc: Global,
    words: &[String],
    commands: &mut C,
    out: &mut O,
) -> Status
    ensures ends { Ran (C.left commands.old) (C.left commands.new) (O.taken out.old) (O.taken out.new) (Ends result first_machine) }
    ensures usage { (result ≡ Status.Usage) ↔ (wanted_of words.now ≡ Form.Usage) }
    ensures untouched { result ≡ Status.Usage → (commands.new ≡ commands.old) × (out.new ≡ out.old) }
    ensures read { result ≡ Status.ReadFault → Rose (C.faults commands.old) (C.faults commands.new) }
    ensures write { result ≡ Status.WriteFault → Rose (O.faults out.old) (O.faults out.new) }
    ensures patches { (stream : List ℕ) → AllCarry first_machine (lines stream) }
    ensures complete { wanted_of words.now ≡ Form.Scratch → IsWithin (C.left commands.old) → (¬ Rose (C.faults commands.old) (C.faults commands.new)) → (¬ Rose (O.faults out.old) (O.faults out.new)) → IsDoneOrMemory result }
{
    match wanted(alloc, words) {
        Form::Scratch => scratch(alloc, commands, out),
        Form::Usage => Status::Usage,
    }
}

/// Commands on the empty object.
fn scratch<C: Source, O: Sink>(alloc: Global, commands: &mut C, out: &mut O) -> Status
    ensures ends { Ran (C.left commands.old) (C.left commands.new) (O.taken out.old) (O.taken out.new) (Ends result first_machine) }
    ensures usage { result ≢ Status.Usage }
    ensures read { result ≡ Status.ReadFault → Rose (C.faults commands.old) (C.faults commands.new) }
    ensures write { result ≡ Status.WriteFault → Rose (O.faults out.old) (O.faults out.new) }
{
    let first = Val::empty_object(alloc);
    match Host::open(alloc, &first) {
        Ok(host) => serve_lines(alloc, host, commands, out),
        Err(_) => Status::Memory,
    }
}
