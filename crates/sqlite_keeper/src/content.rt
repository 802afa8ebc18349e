//! The table `records` of entries, and the table `format`, which says the version of the file, so that an older program
//! can tell a newer file. A file that has the first of them alone is of version 1.
ghost use Rattle.std.specs.Prelude.{◌≡◌, true, IfOk, IfErr};
ghost use Rattle.sqlite.specs.Held.{state};
ghost use Rattle.sqlite_keeper.specs.Guarded.{StaysGuarded};
ghost use Rattle.sqlite_keeper.specs.Troubles.{is_refusal, is_well_said, lacks_version};

use crate::trouble::{Trouble, trouble_of};
use size_values::Or;
use sqlite::types::ValueRef;
use sqlite::{Alter, Connection, Error, ErrorCode, Transaction, params};

/// What stands in a database.
#[derive(Clone, Copy)]
enum Content {
    Nothing,
    Records,
    /// The table of the first version, before files had the table `format`.
    RecordsAlone,
    NewerVersion(u32),
    OtherTables,
}

/// The version of the files that are written.
pub(crate) const VERSION: u32 = 1;

const FORMAT: &str = "CREATE TABLE format (version INTEGER NOT NULL)";

const RECORDS: &str = "CREATE TABLE records (kind INTEGER NOT NULL, key TEXT NOT NULL, \
    body BLOB NOT NULL, PRIMARY KEY (kind, key))";

const SAYS_VERSION: &str = "INSERT INTO format (version) VALUES (1)";

const OBJECTS: &str = "SELECT count(*) FROM sqlite_schema WHERE substr(name, 1, 7) <> 'sqlite_'";

const MADE_BY: &str = "SELECT count(*) FROM sqlite_schema WHERE sql = ?1";

/// The number that a query answers.
pub(crate) fn number<S: Alter>(
    database: &mut Connection<S>,
    sql: &str,
    params: &[ValueRef<'_>],
) -> Result<i64, Error>
    ensures { StaysGuarded S.Store database.old database.new }
{
    match database.query_row(sql, params) {
        Ok(row) => row.get(0),
        Err(error) => Err(error),
    }
}

/// Whether there is a table that was made by this text.
fn has_table<S: Alter>(database: &mut Connection<S>, text: &str) -> Result<bool, Error>
    ensures { StaysGuarded S.Store database.old database.new }
{
    match number(database, MADE_BY, params![text]) {
        Ok(found) => Ok(found == 1),
        Err(error) => Err(error),
    }
}

/// A version that was read, if it is a number.
fn version_said(read: Result<u32, Error>) -> Result<Option<u32>, Error> {
    match read {
        Ok(version) => Ok(Some(version)),
        Err(Error::SqliteFailure(code)) => Err(Error::SqliteFailure(code)),
        Err(_) => Ok(None),
    }
}

/// The version that the table `format` says, if it is a number.
fn version_of<S: Alter>(database: &mut Connection<S>) -> Result<Option<u32>, Error>
    ensures { StaysGuarded S.Store database.old database.new }
{
    match database.query_row("SELECT max(version) FROM format", &[]) {
        Ok(row) => version_said(row.get(0)),
        Err(error) => Err(error),
    }
}

/// What stands in a database of this version, which has as many objects.
fn content_of_version(version: Option<u32>, objects: i64, has_records: bool) -> Content
    ensures { is_well_said result ≡ true }
{
    match version {
        Some(version) if version > VERSION => Content::NewerVersion(version),
        Some(VERSION) if objects == 2 && has_records => Content::Records,
        _ => Content::OtherTables,
    }
}

/// What stands in a database that has the table `format`, and as many objects.
fn content_with_format<S: Alter>(
    database: &mut Connection<S>,
    objects: i64,
) -> Result<Content, Error>
    ensures guarded { StaysGuarded S.Store database.old database.new }
    ensures said { IfOk result (λ content. is_well_said content ≡ true) }
{
    let version = version_of(database)?;
    let has_records = has_table(database, RECORDS)?;
    Ok(content_of_version(version, objects, has_records))
}

/// What stands in a database that lacks the table `format`, and has as many objects.
fn content_without_format<S: Alter>(
    database: &mut Connection<S>,
    objects: i64,
) -> Result<Content, Error>
    ensures guarded { StaysGuarded S.Store database.old database.new }
    ensures said { IfOk result (λ content. is_well_said content ≡ true) }
{
    if has_table(database, RECORDS)? && objects == 1 {
        Ok(Content::RecordsAlone)
    } else {
        Ok(Content::OtherTables)
    }
}

/// What stands in a database of as many objects.
fn content_of_objects<S: Alter>(
    database: &mut Connection<S>,
    objects: i64,
) -> Result<Content, Error>
    ensures guarded { StaysGuarded S.Store database.old database.new }
    ensures said { IfOk result (λ content. is_well_said content ≡ true) }
{
    if objects == 0 {
        return Ok(Content::Nothing);
    }
    if has_table(database, FORMAT)? {
        content_with_format(database, objects)
    } else {
        content_without_format(database, objects)
    }
}

fn content_of<S: Alter>(database: &mut Connection<S>) -> Result<Content, Error>
    ensures guarded { StaysGuarded S.Store database.old database.new }
    ensures said { IfOk result (λ content. is_well_said content ≡ true) }
{
    let objects = number(database, OBJECTS, &[])?;
    content_of_objects(database, objects)
}

/// Makes the table `records`, where it is missing.
fn make_records<S: Alter>(
    transaction: &mut Transaction<'_, S>,
    has_records: bool,
) -> Result<(), Error>
    ensures same_reference { transaction.new.conn.ghost_name ≡ transaction.old.conn.ghost_name }
    ensures shield { (state S.Store transaction.old.conn.now).IsShielded
        → (state S.Store transaction.new.conn.now).IsShielded }
{
    if has_records {
        return Ok(());
    }
    transaction.execute(RECORDS, &[])?;
    Ok(())
}

/// Runs the statements that make the table `format`, and the table `records` where it is missing too.
fn run_makers<S: Alter>(
    transaction: &mut Transaction<'_, S>,
    has_records: bool,
) -> Result<(), Error>
    ensures same_reference { transaction.new.conn.ghost_name ≡ transaction.old.conn.ghost_name }
    ensures shield { (state S.Store transaction.old.conn.now).IsShielded
        → (state S.Store transaction.new.conn.now).IsShielded }
{
    transaction.execute(FORMAT, &[])?;
    make_records(transaction, has_records)?;
    transaction.execute(SAYS_VERSION, &[])?;
    Ok(())
}

/// Makes the tables that a database lacks: all of them or none.
fn make_tables<S: Alter>(database: &mut Connection<S>, has_records: bool) -> Result<(), Error>
    ensures { StaysGuarded S.Store database.old database.new }
{
    if !database.is_autocommit() {
        return Err(Error::SqliteFailure(ErrorCode::TransactionState));
    }
    let mut transaction = database.transaction();
    match run_makers(&mut transaction, has_records) {
        Ok(()) => transaction.commit(),
        Err(error) => Err(error),
    }
}

/// Makes the table `format` in a database that has the table `records` alone.
pub fn say_version<S: Alter>(database: &mut Connection<S>) -> Result<(), Error>
    ensures { StaysGuarded S.Store database.old database.new }
{
    make_tables(database, true)
}

/// Makes the tables where there are none, if they are to be made, and says what else stands in the database.
fn admit_content<S: Alter>(
    database: &mut Connection<S>,
    content: Content,
    is_made: bool,
) -> Result<bool, Or<Trouble>>
    requires { is_well_said content ≡ true }
    ensures guarded { StaysGuarded S.Store database.old database.new }
    ensures cause { IfErr result (λ why. is_refusal why ≡ true) }
    ensures lacking { IfOk result (λ lacks. lacks ≡ lacks_version content) }
{
    match content {
        Content::Records => Ok(false),
        Content::RecordsAlone => Ok(true),
        Content::NewerVersion(version) => Err(Or::Why(Trouble::NewerVersion(version))),
        Content::OtherTables => Err(Or::Why(Trouble::OtherTables)),
        Content::Nothing if !is_made => Err(Or::Why(Trouble::Missing)),
        Content::Nothing => match make_tables(database, false) {
            Ok(()) => Ok(false),
            Err(error) => Err(trouble_of(error)),
        },
    }
}

/// Lets a database pass that is of this program. Of an empty one it makes the tables, or refuses it. Any other is not
/// written to. It answers whether the table `format` is lacking.
pub fn admit<S: Alter>(database: &mut Connection<S>, is_made: bool) -> Result<bool, Or<Trouble>>
    ensures guarded { StaysGuarded S.Store database.old database.new }
    ensures cause { IfErr result (λ why. is_refusal why ≡ true) }
{
    match content_of(database) {
        Ok(content) => admit_content(database, content, is_made),
        Err(error) => Err(trouble_of(error)),
    }
}

/// Whether a database answers: a failure of the disk may close it for good.
pub fn answers<S: Alter>(database: &mut Connection<S>) -> bool
    ensures { StaysGuarded S.Store database.old database.new }
{
    match number(database, OBJECTS, &[]) {
        Ok(_) => true,
        Err(_) => false,
    }
}
