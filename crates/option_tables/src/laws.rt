//! What a reader of the tables may rely on. Each law is the contract of a function that does nothing.
ghost use Rattle.std.specs.Prelude.{◌≡◌, ℕ, List, Some, slice_get, true};
ghost use Rattle.plain_lists.specs.Members.{Mem};
ghost use Rattle.option_tables.specs.declared.form.Form.{Form};
ghost use Rattle.option_tables.specs.declared.tables.Scope.{Scope};
ghost use Rattle.option_tables.specs.Tables.{instance_lines, scoped_form_in, form_in, takes, is_for};
ghost use Rattle.option_tables.specs.Apart.{plain_tables};

/// No key is taken by two lines of a table, so the one line that takes a key is its rule.
pub fn each_line_is_the_rule_of_its_keys()
    ensures instance { (place : ℕ) (line : List ℕ × Form × Scope) (checked : Scope) (key : List ℕ)
        → slice_get instance_lines place ≡ Some line → is_for checked line.2 ≡ true → takes line.0 key ≡ true
        → scoped_form_in instance_lines checked key ≡ Some line.1 }
    ensures others { (lines : List (List ℕ × Form)) → Mem lines plain_tables
        → (place : ℕ) (line : List ℕ × Form) (key : List ℕ) → slice_get lines place ≡ Some line
        → takes line.0 key ≡ true → form_in lines key ≡ Some line.1 }
{}
