// What a rack notes of the score at one of its places.
ghost use Rattle.std.specs.Prelude.{◌≡◌};
ghost use Rattle.rack.specs.Places.{place_of};

use building::size::Size;

// How many nodes and primitives a score has.
#[derive(Clone, Copy)]
pub struct Place {
    pub nodes: u32,
    pub primitives: u32,
}

// The note of a score of a size.
impl From<Size> for Place {
    ghost from_gives = { λ size result. result ≡ place_of size };

    fn from(size: Size) -> Place {
        Place {
            nodes: size.nodes,
            primitives: size.primitives,
        }
    }
}
