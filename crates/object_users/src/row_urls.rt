//! The URLs of rows, as they stand and in byte order.
ghost use Rattle.std.specs.Prelude.{◌≡◌, IfOk};
ghost use Rattle.row_machine.specs.machine.Claims.{project_of_row};
ghost use Rattle.row_machine.specs.shown.Urls.{sorted, target_of};
ghost use Rattle.row_machine.specs.shown.Views.{row_url, urls};

use crate::row_ref::RowRef;
use object_links::{snapshot_target, target_named, url_of, volume_target};
use records::{AnyRow, Target};
use size_values::{NoMemory, ObjectKind, Seq, Text};
use std::alloc::Global;

/// What names a row.
pub(crate) fn target_of(alloc: Global, row: &RowRef<'_>) -> Result<Target, NoMemory>
    ensures { IfOk result (λ t. t ≡ target_of row.now) }
{
    match row.row {
        AnyRow::Project(row) => target_named(alloc, ObjectKind::Project, &row.name),
        AnyRow::Profile(row) => target_named(alloc, ObjectKind::Profile, &row.name),
        AnyRow::Network(row) => target_named(alloc, ObjectKind::Network, &row.name),
        AnyRow::Pool(row) => target_named(alloc, ObjectKind::Pool, &row.name),
        AnyRow::Volume(row) => volume_target(alloc, row),
        AnyRow::Instance(row) => target_named(alloc, ObjectKind::Instance, &row.name),
        AnyRow::Snapshot(row) => snapshot_target(alloc, row),
    }
}

/// The project that a row belongs to.
fn project_of<'x>(row: &RowRef<'x>) -> &'x str
    ensures { result.now ≡ project_of_row row.now }
{
    match row.row {
        AnyRow::Project(row) => row.name.view(),
        AnyRow::Profile(row) => row.project.view(),
        AnyRow::Network(row) => row.project.view(),
        AnyRow::Pool(_) => "",
        AnyRow::Volume(row) => row.project.view(),
        AnyRow::Instance(row) => row.project.view(),
        AnyRow::Snapshot(row) => row.project.view(),
    }
}

/// The URL of a row.
pub fn row_url(alloc: Global, row: &RowRef<'_>) -> Result<Text, NoMemory>
    ensures { IfOk result (λ t. t ≡ row_url row.now) }
{
    let of = target_of(alloc, row)?;
    let url = url_of(alloc, project_of(row), &of);
    drop(of);
    url
}

fn url_texts(alloc: Global, rows: &[RowRef<'_>]) -> Result<Vec<Text>, NoMemory>
    ensures { IfOk result (λ ts. ts.items ≡ urls rows.now) }
{
    let mut texts = Vec::new(alloc);
    for row in rows {
        texts.push(row_url(alloc, row)?)?;
    }
    Ok(texts)
}

/// The URLs of rows.
pub fn urls_of_rows(alloc: Global, rows: &[RowRef<'_>]) -> Result<Seq<Text>, NoMemory>
    ensures { IfOk result (λ ts. ts ≡ urls rows.now) }
{
    let texts = url_texts(alloc, rows)?;
    Ok(Seq::from_vec(texts))
}

/// Puts texts in byte order.
fn sort_texts(texts: &mut Vec<Text>)
    ensures { texts.new.items ≡ sorted texts.old.items }
{
    texts.sort_unstable_by(|one, other| one.compare(other));
}

/// The URLs of rows in byte order.
pub(crate) fn sorted_urls(alloc: Global, rows: &[RowRef<'_>]) -> Result<Seq<Text>, NoMemory>
    ensures { IfOk result (λ ts. ts ≡ sorted (urls rows.now)) }
{
    let mut texts = url_texts(alloc, rows)?;
    sort_texts(&mut texts);
    Ok(Seq::from_vec(texts))
}
