ghost use Rattle.pfx_kinds_walk.specs.Laws.{WalksDrawInOrder};

/// After n steps the number that a walk drew last is the n-th of the generator.
pub fn walks_draw_in_order()
    ensures { WalksDrawInOrder }
{}
