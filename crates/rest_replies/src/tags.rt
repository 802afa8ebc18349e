//! Entity tags of what replies show.
ghost use Rattle.std.specs.Prelude.{◌≡◌, IfOk, option_map};
ghost use Rattle.records.specs.AnyRows.{row_in};
ghost use Rattle.rest_json.specs.declared.terms.Dialect.TheVariants as dialect;
ghost use Rattle.rest_replies.specs.Tags.{reply_tag, row_shown, tag_in};

use records::{AnyRow, Reply, View};
use rest_json::Dialect;
use row_codec::tag_of;
use size_values::{NoMemory, Text};
use std::alloc::Global;

/// The row that is shown, if a row is.
fn row_shown(shown: &View) -> Option<AnyRow<'_>>
    ensures { option_map row_in result ≡ row_shown shown.now }
{
    match shown {
        View::Project(project, _) => Some(AnyRow::Project(project)),
        View::Profile(profile, _) => Some(AnyRow::Profile(profile)),
        View::Network(network, _) => Some(AnyRow::Network(network)),
        View::Pool(pool, _) => Some(AnyRow::Pool(pool)),
        View::Volume(volume, _) => Some(AnyRow::Volume(volume)),
        View::Instance { row, .. } => Some(AnyRow::Instance(row)),
        View::Snapshot(snapshot) => Some(AnyRow::Snapshot(snapshot)),
        View::Server | View::Power(_) | View::Usage(_) | View::Op(_) => None,
    }
}

/// The tag of the row that is shown, or an empty text.
fn view_tag(alloc: Global, shown: &View) -> Result<Text, NoMemory>
    ensures { IfOk result (λ tag. tag ≡ tag_in dialect.Client shown.now) }
{
    let Some(row) = row_shown(shown) else {
        return Ok(Text::new(alloc));
    };
    match tag_of(alloc, row)? {
        Some(tag) => Ok(tag),
        None => Ok(Text::new(alloc)),
    }
}

/// The entity tag of a reply with its quotes (RFC 9110, section 8.8.3): in the client's dialect that of the row which
/// the reply shows, and else an empty text.
pub(crate) fn reply_tag(alloc: Global, dialect: Dialect, reply: &Reply) -> Result<Text, NoMemory>
    ensures { IfOk result (λ tag. tag ≡ reply_tag dialect reply.now) }
{
    match reply {
        Reply::One(shown) => match dialect {
            Dialect::Plain => Ok(Text::new(alloc)),
            Dialect::Client => view_tag(alloc, shown),
        },
        Reply::Empty
        | Reply::Links(_)
        | Reply::Many(_)
        | Reply::OpLinks(_)
        | Reply::OpMany(_)
        | Reply::Started(_)
        | Reply::Refused(_)
        | Reply::NoMemory => Ok(Text::new(alloc)),
    }
}
