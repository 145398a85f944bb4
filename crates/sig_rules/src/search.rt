ghost use Rattle.std.specs.Prelude.{◌≡◌, ◌++◌, ◌<◌, length, slice_get, IfNone, IfSome, Some, None, false, get_or};
ghost use Rattle.std.specs.Option.{option_map};
ghost use Rattle.std.specs.List.Sorted.{IsStrictlySortedBy};
ghost use Rattle.rbs_tree.specs.declared.names.TypeName.{TypeName};
ghost use Rattle.sig_rules.specs.Sorted.{is_among, path_cmp, paths_of};

use rbs_tree::TypeName;
use src_text::Text;
use std::cmp::Ordering;

/// How the words of a name stand to those of two lists, one behind the other.
pub(crate) fn compare(path: &[Text], front: &[Text], back: &[Text]) -> Ordering
    ensures { result ≡ path_cmp path.now (front.now ++ back.now) }
{
    let mut words = path;
    let mut before = front;
    while let [word, more @ ..] = before {
        match words {
            [] => return Ordering::Less,
            [first, rest @ ..] => match first.cmp(word) {
                Ordering::Equal => words = rest,
                other => return other,
            },
        }
        before = more;
    }
    Ord::cmp(&words, &back)
}

/// The place of a name among names that rise, by its words in two lists. It makes as many comparisons as the number of names has
/// binary digits.
pub(crate) fn place_of(names: &[TypeName], front: &[Text], back: &[Text]) -> Option<usize>
    requires rising { IsStrictlySortedBy path_cmp (paths_of names.now) }
    ensures some { IfSome result (λ at. option_map (λ (n : TypeName). n.path) (slice_get names.now at) ≡ Some (front.now ++ back.now)) }
    ensures none { IfNone result (is_among names.now (front.now ++ back.now) ≡ false) }
{
    names
        .binary_search_by(|name| compare(name.path.as_slice(), front, back))
        .ok()
}
