ghost use Rattle.std.specs.Prelude.{◌≡◌, ◌++◌};
ghost use Rattle.std.specs.Cmp.Lexicographic.{lists_equiv, nat_list_eq_equiv};
ghost use Rattle.std.specs.Hash as fed;
ghost use Rattle.sig_rules.specs.Declarations.{same_path};
ghost use Rattle.sig_rules.specs.Hashing.{path_fed, words_fed};

use indexmap::Equivalent;
use src_text::{Seq, Text};
use std::hash::{Hash, Hasher};

/// The words of a name in two lists, one behind the other. They stand for the list of all of them where a table is asked.
#[derive(Clone, Copy, Debug, PartialEq, Eq)]
pub(crate) struct Words<'a> {
    pub(crate) front: &'a [Text],
    pub(crate) back: &'a [Text],
}

impl<'a> Hash for Words<'a> {
    ghost hash_input = { λ w. fed.slice fed.str (w.front.now ++ w.back.now) };

    ghost respects_eq = { λ x y. words_fed x.front.now x.back.now y.front.now y.back.now };

    fn hash<H: Hasher>(&self, state: &mut H) {
        state.write_usize(self.front.len() + self.back.len());
        Text::hash_slice(self.front, state);
        Text::hash_slice(self.back, state);
    }
}

impl<'a> Equivalent<Seq<Text>> for Words<'a> {
    ghost equivalent = { λ w. same_path (w.front.now ++ w.back.now) };

    ghost respects_hash = { λ w. path_fed (w.front.now ++ w.back.now) };

    ghost respects_eq = { λ w. (lists_equiv nat_list_eq_equiv).congr (w.front.now ++ w.back.now) };

    fn equivalent(&self, key: &Seq<Text>) -> bool {
        has_words(key.as_slice(), self.front, self.back)
    }
}

// Whether these are the words of two lists, one behind the other.
fn has_words(path: &[Text], front: &[Text], back: &[Text]) -> bool
    ensures { result ≡ same_path (front.now ++ back.now) path.now }
{
    let mut words = path;
    let mut before = front;
    while let [word, more @ ..] = before {
        match words {
            [] => return false,
            [first, rest @ ..] => {
                if word != first {
                    return false;
                }
                words = rest;
            }
        }
        before = more;
    }
    back == words
}
