//! Why a load was not answered.

use clr_base::{HistoryFull, Memory, TableFull};
use std::alloc::AllocError;

/// Why a load was not answered.
#[derive(Clone, Copy, PartialEq, Eq)]
pub enum LoadStop {
    /// The loader's table has no room.
    TableFull,
    /// The loader's history has no room.
    HistoryFull,
    /// Want of memory.
    Memory,
}

impl From<TableFull> for LoadStop {
    ghost use Rattle.std.specs.Prelude.{◌≡◌};
    ghost use Rattle.loader_api.specs.declared.stops.LoadStop.TheVariants as stop;

    ghost from_gives = { λ _ s. s ≡ stop.TableFull };

    fn from(_: TableFull) -> LoadStop {
        LoadStop::TableFull
    }
}

impl From<HistoryFull> for LoadStop {
    ghost use Rattle.std.specs.Prelude.{◌≡◌};
    ghost use Rattle.loader_api.specs.declared.stops.LoadStop.TheVariants as stop;

    ghost from_gives = { λ _ s. s ≡ stop.HistoryFull };

    fn from(_: HistoryFull) -> LoadStop {
        LoadStop::HistoryFull
    }
}

impl From<Memory> for LoadStop {
    ghost use Rattle.std.specs.Prelude.{◌≡◌};
    ghost use Rattle.loader_api.specs.declared.stops.LoadStop.TheVariants as stop;

    ghost from_gives = { λ _ s. s ≡ stop.Memory };

    fn from(_: Memory) -> LoadStop {
        LoadStop::Memory
    }
}

impl From<AllocError> for LoadStop {
    ghost use Rattle.std.specs.Prelude.{◌≡◌};
    ghost use Rattle.loader_api.specs.declared.stops.LoadStop.TheVariants as stop;

    ghost from_gives = { λ _ s. s ≡ stop.Memory };

    fn from(_: AllocError) -> LoadStop {
        LoadStop::Memory
    }
}
