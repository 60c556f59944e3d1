ghost use Rattle.std.specs.Prelude.{◌≡◌};

use pfx_token::tokens::{Keeper, Room, UnnamedKeeper};
use std::alloc::Global;
use std::marker::Brand;

/// Two tokens are noted in turn and looked at. What they bring home the contracts say; here it is seen that it runs.
fn bring_home<B: Room>(opened: UnnamedKeeper<u32>) -> bool
    requires { opened.table.shared.table_id ≡ B.table }
{
    let mut keeper: Keeper<u32, B> = opened.named::<B>();
    let mut first = keeper.issue();
    let mut second = keeper.issue();
    keeper.note(&mut first, &5);
    keeper.note(&mut second, &7);
    keeper.note(&mut first, &6);
    keeper.look(&mut second);
    keeper.look(&mut first);
    true
}

/// Whether a keeper is made, and serves.
fn keeper_serves(alloc: Global) -> bool {
    match UnnamedKeeper::new(alloc) {
        Ok(opened) => bring_home::<Brand>(opened),
        Err(_) => false,
    }
}

#[test]
fn tokens_bring_lists_home(rt: HostRuntime) {
    assert!(rt; keeper_serves(rt.alloc()));
}
