//! Where a line of a script ends.

ghost use Rattle.std.specs.Prelude.{◌≡◌, ◌+◌, ◌-◌, ◌<◌, ◌≤◌, ◌==◌, not, ◌∷◌, length, drop, slice_range};
ghost use Rattle.std.specs.List.{prefix_len};
ghost use Rattle.script.specs.Lines.{lines_of};

/// How many bytes stand before the first `stop`, or all where there is none.
pub(crate) fn length_before(bytes: &[u8], stop: u8) -> usize
    ensures value { result ≡ prefix_len (λ byte. not (byte == stop)) bytes.now }
    ensures within { result ≤ length bytes.now }
{
    bytes.iter().take_while(|byte| **byte != stop).count()
}

/// Where the line that begins at `start` ends: at the next line feed, or at the script's end.
pub fn line_end(script: &[u8], start: usize) -> usize
    ensures within { result ≤ length script.now }
    ensures after { start ≤ length script.now → start ≤ result }
    ensures past { length script.now ≤ start → result ≡ length script.now }
    ensures line { start < length script.now → lines_of (drop start script.now) ≡ slice_range script.now start result ∷ lines_of (drop (result + 1) script.now) }
{
    if start >= script.len() {
        return script.len();
    }
    start + length_before(&script[start..], b'\n')
}
