// The names that are declared.
ghost use Rattle.std.specs.Prelude.{◌≤◌, vec_len};

use crate::search::Named;
use crate::syntax::Mention;
use rules::{Channel, Kind};

// The names of the variables (v), or those of the channels (c), at most 64: a name's place is its number.
#[derive(Drop)]
pub struct NameList<'a, const LETTER: u8> {
    pub(crate) names: Vec<&'a [u8]>,
    ghost few: { vec_len names ≤ 64 },
}

// A channel that is placed at an address.
#[derive(Clone, Copy, Debug, PartialEq, Eq)]
pub struct Link {
    pub channel: Channel,
    pub kind: Kind,
}

// The names of a text, as far as it has been read. No model: the functions of this crate need the three lists, and
// `table` sums them up for the definitions. Functions that allocate take the allocator beside them, as the language has
// it for all code.
#[derive(Drop)]
pub struct Names<'a> {
    pub(crate) variables: NameList<'a, b'v'>,
    pub(crate) channels: NameList<'a, b'c'>,
    // in the order of their lines, as the definitions have them: eight at most, so a map by channel would be no plainer
    pub(crate) links: Vec<Link>,
}

impl Named for &[u8] {
    ghost named = { λ n. n.now };

    fn name(&self) -> &[u8] {
        self
    }
}

impl Named for Mention<'_> {
    ghost named = { λ m. m.text.now };

    fn name(&self) -> &[u8] {
        self.text
    }
}
