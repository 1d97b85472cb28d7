// What values are read from: the payload and the names list, the pool that was read, and how many rows and spans there is room for.
ghost use Rattle.read_items.specs.Context.{PoolFits};

use cursor::Cursor;
use payload::Capacities;
use read_items::items::Items;

#[derive(Clone, Copy)]
pub struct Source<'a> {
    pub payload: &'a [u8],
    pub names: &'a [u8],
    pub pool: &'a [u64],
    pub capacities: Capacities,
    ghost pool_fits: { PoolFits payload.now pool.now },
}

impl<'a> Source<'a> {
    ghost use Rattle.std.specs.Prelude.{◌≤◌, length};
    ghost use Rattle.read_values.specs.Items.{ItemsAt};

    // The items that stand at a place of the payload.
    pub(crate) fn items_at(self, at: usize) -> Items<'a>
        requires { at ≤ length self.payload.now }
        ensures { ItemsAt self.entry at result }
    {
        Items {
            cursor: Cursor::new(self.payload, at),
            pool: self.pool,
        }
    }
}
