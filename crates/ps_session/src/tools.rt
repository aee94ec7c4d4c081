//! What a session reads and obeys lines with.

use crate::resources::Resources;
use ps_wire::Decoder;

/// What a session reads and obeys lines with: threads and memory, and a decoder that lasts from line to line.
#[derive(Drop)]
pub(crate) struct Tools<'a, R> {
    /// The threads and the allocator.
    pub(crate) resources: Resources<'a, R>,
    /// Reads the deltas that are pushed.
    pub(crate) decoder: Decoder,
    /// Whether the line that is answered is the last one that was read, so that the peer may wait for its reply.
    pub(crate) is_last: bool,
}
