ghost use Rattle.std.specs.Prelude.{◌≡◌, ℕ, List, Some, true};
ghost use Rattle.std.specs.List.{AllByRecursion};
ghost use Rattle.journal_keeper.specs.Texts.{Commit, commit_of, commit_text, is_short_commit, IsTypedChange};
ghost use Rattle.journal_keeper.specs.Chain.{Chain, chain_of};

/// Reading from left to right finds the commits that a file stands for and no others, so a file stands for one list of
/// commits at most.
pub fn a_file_has_one_chain()
    ensures read { (file : List ℕ) (commits : List Commit) → Chain file commits → chain_of file ≡ Some commits }
    ensures found { (file : List ℕ) (commits : List Commit) → chain_of file ≡ Some commits → Chain file commits }
{}

/// The text of a commit that can be taken is read as that commit.
pub fn a_text_is_read_as_its_commit()
    ensures { (changes : Commit) → is_short_commit changes ≡ true → AllByRecursion IsTypedChange changes
        → commit_of (commit_text changes) ≡ Some changes }
{}
