//! Laws: functions that do nothing, whose contracts are the laws.
ghost use Rattle.rest_json.specs.Ids.{ReadsBack};

/// The id of an operation names the operation's number again.
pub fn ids_read_back()
    ensures { ReadsBack }
{}
