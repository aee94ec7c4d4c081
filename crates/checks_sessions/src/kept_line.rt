use ps_grid::Refusal;
use ps_lines::{KeptLine, read_kept_line};
use ps_wire::Decoder;

/// A line that pushes a delta.
const PUSH: &[u8] = b"push  [ [\"\\u00411\", [1,2,\"5\"],[], []] ] ";

/// Whichever single allocation fails, a `push` line is either read or refused as out of memory. If it is refused, the
/// same decoder reads it in a second call. Reading the line of a replica never allocates.
#[test]
fn refused_read_kept_line(rt: HostRuntime) {
    let alloc = rt.alloc();
    let mut decoder = Decoder::new(alloc);
    let replica = read_kept_line(alloc, &mut decoder, b"replica 32");
    assert!(rt; matches!(replica, Ok(Some(KeptLine::Replica(32)))));
    for _ in 0..2 {
        match read_kept_line(alloc, &mut decoder, PUSH) {
            Ok(said) => {
                assert!(rt; matches!(said, Some(KeptLine::Push(_))));
                return;
            }
            Err(refusal) => assert!(rt; refusal == Refusal::Memory),
        }
    }
    assert!(rt; false);
}
