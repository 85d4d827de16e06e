// The caps, in a file of their own, since definitions name the type.

// By team number, the association of the team; by association number, how many of its teams a group may have. Any
// number will do: an association past the last number has no cap, and a cap of 0 admits no team of its association.
#[derive(Clone, Copy, PartialEq, Eq, Debug)]
pub struct Caps {
    pub(crate) associations: [Option<u8>; 96],
    pub(crate) caps: [Option<u8>; 65],
}
