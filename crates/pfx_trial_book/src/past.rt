ghost use Rattle.std.specs.Prelude.{◌≡◌};

use pfx_token::past::{End, Naming, Past, UnnamedList};
use std::marker::Brand;

/// Adds an entry if there is room.
fn extended<J: Naming>(end: &End<u32, J>, past: &mut Past<u32, J>, entry: u32) -> bool {
    past.count() < 10 && end.extend(past, &entry)
}

/// Whether these know nothing of a list, two entries and all three, each a beginning of the next.
fn are_ordered<J: Naming>(old: &Past<u32, J>, two: &Past<u32, J>, all: &Past<u32, J>) -> bool {
    let known = old.count() == 0 && two.count() == 2 && all.count() == 3;
    known && two.begins(all) && !all.begins(two) && all.begins(all) && old.begins(two)
}

/// A list grows by three entries; an old beginning of it can't add one, and then knows the list.
fn grow<J: Naming>(opened: UnnamedList<u32>) -> bool
    requires { opened.seen.book ≡ J.book }
{
    let (end, mut all) = opened.named::<J>();
    let mut old = all.again();
    if !extended(&end, &mut all, 5) || !extended(&end, &mut all, 6) {
        return false;
    }
    let two = all.again();
    if !extended(&end, &mut all, 7) {
        return false;
    }
    let ordered = are_ordered(&old, &two, &all);
    let refused = !extended(&end, &mut old, 9);
    ordered && refused && old.count() == 3 && all.begins(&old)
}

/// Whether a list grows as it should.
fn list_grows() -> bool {
    grow::<Brand>(UnnamedList::new())
}

#[test]
fn beginnings_are_compared(rt: HostRuntime) {
    assert!(rt; list_grows());
}
