//! Writing a whole text, and flushing it.

ghost use Rattle.std.specs.Prelude.{◌≡◌, ◌≤◌, ◌<◌, length, OnOk, OnErr};
ghost use Rattle.gql_streams.specs.Causes.{HasCause};
ghost use Rattle.gql_streams.specs.Writing.{Gets, GetsPrefix, IsFlushed};

use crate::outside::{Failed, Sink};

/// Writes the whole text and flushes it. After `Failed` the sink got a prefix of the text.
pub fn write_all<K: Sink>(output: &mut K, text: &[u8]) -> Result<(), Failed>
    ensures whole { OnOk result (Gets (K.state output.old) (K.state output.new) text.now) }
    ensures flushed { OnOk result (IsFlushed (K.state output.new)) }
    ensures prefix { OnErr result (GetsPrefix (K.state output.old) (K.state output.new) text.now) }
    ensures cause { HasCause (K.state output.old).faults (K.state output.new).faults result }
{
    let mut done = 0;
    while done < text.len() {
        done += output.write(&text[done..])?;
    }
    output.flush()
}
