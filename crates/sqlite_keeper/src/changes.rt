//! What changes of entries do to the table `records`.
ghost use Rattle.std.specs.Prelude.{◌≡◌, true, IsTrue, OnOk, OnErr};
ghost use Rattle.sqlite.specs.Effect.{Database};
ghost use Rattle.sqlite.specs.State.{HasCleanDisk, ExecutesInside, KeepsCommit, Survives};
ghost use Rattle.sqlite.specs.Held.{state};
ghost use Rattle.size_values.specs.declared.entry.EntryChange.{EntryChange as Change};
ghost use Rattle.sqlite_keeper.specs.Guarded.{StaysGuarded};
ghost use Rattle.sqlite_keeper.specs.Changes.{statement_of, values_of, Makes, Leaves};

use size_values::{Entry, EntryChange, Text};
use sqlite::{Alter, Connection, Error, ErrorCode, Transaction, params};

const PUT: &str = "INSERT INTO records (kind, key, body) VALUES (?1, ?2, ?3) \
    ON CONFLICT (kind, key) DO UPDATE SET body = excluded.body";

const REMOVE: &str = "DELETE FROM records WHERE kind = ?1 AND key = ?2";

fn put<S: Alter>(transaction: &mut Transaction<'_, S>, entry: &Entry) -> Result<usize, Error>
    ensures same_reference { transaction.new.conn.ghost_name ≡ transaction.old.conn.ghost_name }
    ensures runs { let change = Change.Put entry.now in
        HasCleanDisk (state S.Store transaction.new.conn.now) → IsTrue transaction.old.conn.now.in_transaction
        → ExecutesInside 0 (statement_of change) (values_of change) (state S.Store transaction.old.conn.now)
        (state S.Store transaction.new.conn.now) result }
    ensures survives { Survives (state S.Store transaction.old.conn.now) (state S.Store transaction.new.conn.now)
        (λ _. ⊥) }
{
    transaction.execute(
        PUT,
        params![u32::from(entry.kind), entry.key.view(), entry.body.view()],
    )
}

fn remove<S: Alter>(
    transaction: &mut Transaction<'_, S>,
    kind: u8,
    key: &Text,
) -> Result<usize, Error>
    ensures same_reference { transaction.new.conn.ghost_name ≡ transaction.old.conn.ghost_name }
    ensures runs { let change = Change.Remove kind key.now in
        HasCleanDisk (state S.Store transaction.new.conn.now) → IsTrue transaction.old.conn.now.in_transaction
        → ExecutesInside 0 (statement_of change) (values_of change) (state S.Store transaction.old.conn.now)
        (state S.Store transaction.new.conn.now) result }
    ensures survives { Survives (state S.Store transaction.old.conn.now) (state S.Store transaction.new.conn.now)
        (λ _. ⊥) }
{
    transaction.execute(REMOVE, params![u32::from(kind), key.view()])
}

fn change_one<S: Alter>(
    transaction: &mut Transaction<'_, S>,
    change: &EntryChange,
) -> Result<usize, Error>
    ensures same_reference { transaction.new.conn.ghost_name ≡ transaction.old.conn.ghost_name }
    ensures runs { HasCleanDisk (state S.Store transaction.new.conn.now)
        → IsTrue transaction.old.conn.now.in_transaction
        → ExecutesInside 0 (statement_of change.now) (values_of change.now) (state S.Store transaction.old.conn.now)
        (state S.Store transaction.new.conn.now) result }
    ensures survives { Survives (state S.Store transaction.old.conn.now) (state S.Store transaction.new.conn.now)
        (λ _. ⊥) }
{
    match change {
        EntryChange::Put(entry) => put(transaction, entry),
        EntryChange::Remove { kind, key } => remove(transaction, *kind, key),
    }
}

/// Makes the changes up to the first that fails. Nothing is committed.
fn change_each<S: Alter>(
    transaction: &mut Transaction<'_, S>,
    changes: &[EntryChange],
) -> Result<(), Error>
    ensures same_reference { transaction.new.conn.ghost_name ≡ transaction.old.conn.ghost_name }
    ensures made { HasCleanDisk (state S.Store transaction.new.conn.now)
        → IsTrue transaction.old.conn.now.in_transaction
        → OnOk result (Makes S.Store changes.now transaction.old.conn.now transaction.new.conn.now
        × IsTrue transaction.new.conn.now.in_transaction) }
    ensures kept { HasCleanDisk (state S.Store transaction.new.conn.now)
        → IsTrue transaction.old.conn.now.in_transaction
        → KeepsCommit (state S.Store transaction.old.conn.now) (state S.Store transaction.new.conn.now) }
    ensures survives { Survives (state S.Store transaction.old.conn.now) (state S.Store transaction.new.conn.now)
        (λ _. ⊥) }
{
    'changes: for change in changes {
        change_one(transaction, change)?;
    }
    Ok(())
}

/// Makes all the changes, in their order, or none of them; also where it is cut off by a crash. It leaves no
/// transaction open, and answers that one is where it finds one.
pub fn change_all<S: Alter>(
    database: &mut Connection<S>,
    changes: &[EntryChange],
) -> Result<(), Error>
    ensures guarded { StaysGuarded S.Store database.old database.new }
    ensures all { HasCleanDisk (state S.Store database.new)
        → OnOk result (Leaves S.Store changes.now database.old (state S.Store database.new).committed) }
    ensures none { HasCleanDisk (state S.Store database.new) → IsTrue (state S.Store database.new).is_open
        → OnErr result (((state S.Store database.new).now ≡ (state S.Store database.old).now)
        × ((state S.Store database.new).committed ≡ (state S.Store database.old).committed)) }
    ensures crash { Survives (state S.Store database.old) (state S.Store database.new)
        (λ trees. (db : Database) × Leaves S.Store changes.now database.old db × (trees ≡ db.trees)) }
{
    if !database.is_autocommit() {
        return Err(Error::SqliteFailure(ErrorCode::TransactionState));
    }
    let mut transaction = database.transaction();
    change_each(&mut transaction, changes)?;
    transaction.commit()
}
