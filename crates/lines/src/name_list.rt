// One list of names, that of the variables or that of the channels.
ghost use Rattle.std.specs.Prelude.{◌≡◌, ◌+◌, ◌≤◌, ◌++◌, [], map, length, option_map, is_ok, if◌then◌else◌, vec_len, OnOk};
ghost use Rattle.lines.specs.Answer.{UnlessMemory};
ghost use Rattle.lines.specs.Found.{found};
ghost use Rattle.lines.specs.Judgement.{added, counted, texts};
ghost use Rattle.lines.specs.Syntax.{naming};
ghost use Rattle.lines.specs.Table.{listed};

use crate::names::NameList;
use crate::refusal::Flaw;
use crate::search::find;
use crate::syntax::Mention;
use numbers::Number;
use std::alloc::Global;

// The most variables, and the most channels.
const LIMIT: usize = 64;

impl<'a, const LETTER: u8> NameList<'a, LETTER> {
    // No names.
    pub fn new(heap: Global) -> NameList<'a, LETTER>
        ensures { listed result ≡ [] }
    {
        NameList {
            names: Vec::new(heap),
        }
    }

    // How many names there are.
    pub fn count(&self) -> u8
        ensures { result ≡ length (listed self.now) }
    {
        self.names.len() as u8
    }

    // The number of a name, if it is there.
    pub fn number_of(&self, name: &[u8]) -> Option<Number<LETTER>>
        ensures { option_map (λ x. x.number) result ≡ found (listed self.now) name.now }
    {
        let place = find(self.names.as_slice(), name)?;
        Number::new(place as u8)
    }

    // There has to be room for so many more.
    fn room(&self, more: usize) -> Result<(), Flaw>
        ensures counts { result ≡ counted (length (listed self.now)) more }
        ensures within { OnOk result (vec_len self.now.names + more ≤ 64) }
    {
        if more > LIMIT - self.names.len() {
            Err(Flaw::TooMany)
        } else {
            Ok(())
        }
    }

    // Adds names behind those that are there, or none: the number of the first, and how many they are. The definitions and
    // who lists a form read the two apart.
    pub fn add(&mut self, list: &[Mention<'a>]) -> Result<(u8, u8), Flaw>
        ensures numbers { UnlessMemory result (added (listed self.old) (map naming list.now)) }
        ensures names { listed self.new ≡ (if is_ok result then listed self.old ++ texts (map naming list.now) else listed self.old) }
    {
        let first = self.names.len();
        let count = list.len();
        self.room(count)?;
        self.names.reserve(count)?;
        for mention in list {
            self.names.push_reserved(mention.text);
        }
        Ok((first as u8, count as u8))
    }
}
