//! Entries put into a sink.

ghost use Rattle.std.specs.Prelude.{OnOk, [], ◌∷◌};
ghost use Rattle.transcript.specs.Print.{IsPrintable};
ghost use Rattle.km_ports.specs.Ports.{PutsInto};
ghost use Rattle.plain_run.specs.Ending.{StopsPut};
ghost use Rattle.plain_run.specs.Plain.{Shows};

use km_ports::{Sink, Status, put_all};
use std::alloc::Global;
use transcript::{Entry, print_entry};

// Puts a text into the sink.
fn put_text<O: Sink>(text: &str, output: &mut O) -> Result<(), Status>
    ensures whole { OnOk result (PutsInto (O.state output.old) (O.state output.new) text.now) }
    ensures cause { StopsPut (O.state output.old) (O.state output.new) result }
{
    put_all(output, text.as_bytes())?;
    Ok(())
}

/// Puts one entry into the sink, a line with its end.
pub fn put_entry<O: Sink>(alloc: Global, entry: Entry, output: &mut O) -> Result<(), Status>
    requires { IsPrintable entry }
    ensures whole { OnOk result (Shows (entry ∷ []) (O.state output.old) (O.state output.new)) }
    ensures cause { StopsPut (O.state output.old) (O.state output.new) result }
{
    let text = print_entry(alloc, &entry)?;
    put_text(&text, output)
}
