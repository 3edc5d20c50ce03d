// A line of `times`, of the crate `line_times`.

ghost use Rattle.std.specs.Prelude.{◌≡◌, length};
ghost use Rattle.line_times.specs.Printed.{printed_in, overlaid_in};

// What `times` prints for a line, without its end; 0 and nothing where the room has fewer than
// 64 bytes.
pub fn tests_times_line(line: &[u8], out: &mut [u8]) -> usize
    ensures answer { result ≡ length (printed_in out.old line.now) }
    ensures kept { out.new ≡ overlaid_in out.old line.now }
{
    line_times::print_line(line, out)
}
