ghost use Rattle.std.specs.Prelude.{◌≡◌};

use crate::journal_file::JournalFile;
use command_words::RowsPath;
use record_keeper::{Keeper, KeeperFailed, MapKeeper};
use size_values::{Entry, EntryChange, Or, Seq};
use sqlite_keeper::SqliteKeeper;

/// Where a program keeps its rows: in memory, in an SQLite file, or in a journal. A program is compiled over this one
/// keeper, and not once over each kind.
#[derive(Drop)]
pub enum RowsKeeper {
    Memory(MapKeeper),
    File(SqliteKeeper),
    Journal(JournalFile),
}

impl RowsKeeper {
    ghost use Rattle.program_start.specs.RowsKeepers.{keeper_at};

    /// A keeper of rows that are kept there. In memory its calls of the listed numbers fail. A file that is missing is
    /// made, or refused.
    pub fn at(rt: HostRuntime, path: RowsPath, fails: Seq<u64>, is_made: bool) -> RowsKeeper
        ensures { result ≡ keeper_at path fails is_made }
    {
        match path {
            RowsPath::Memory => RowsKeeper::Memory(MapKeeper::new(rt.alloc(), fails)),
            RowsPath::Database(path) => RowsKeeper::File(SqliteKeeper::at(rt, path, is_made)),
            RowsPath::Journal(path) => RowsKeeper::Journal(JournalFile::at(rt, path, is_made)),
        }
    }
}

impl Keeper for RowsKeeper {
    ghost use Rattle.program_start.specs.RowsKeepers.{store_of};

    ghost store = { store_of };

    fn load(&mut self) -> Result<Seq<Entry>, Or<KeeperFailed>> {
        match self {
            RowsKeeper::Memory(keeper) => keeper.load(),
            RowsKeeper::File(keeper) => keeper.load(),
            RowsKeeper::Journal(keeper) => keeper.load(),
        }
    }

    fn commit(&mut self, changes: &Seq<EntryChange>) -> Result<(), Or<KeeperFailed>> {
        match self {
            RowsKeeper::Memory(keeper) => keeper.commit(changes),
            RowsKeeper::File(keeper) => keeper.commit(changes),
            RowsKeeper::Journal(keeper) => keeper.commit(changes),
        }
    }

    fn faults(&self) -> u64 {
        match self {
            RowsKeeper::Memory(keeper) => keeper.faults(),
            RowsKeeper::File(keeper) => keeper.faults(),
            RowsKeeper::Journal(keeper) => keeper.faults(),
        }
    }
}
