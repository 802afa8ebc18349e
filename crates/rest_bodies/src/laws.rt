//! What can be said of the order in which fields are judged. Each law is the contract of a function that does nothing.
ghost use Rattle.std.specs.Prelude.{◌≡◌, ℕ, List, Some};
ghost use Rattle.serde_json.specs.Data.{Data};
ghost use Rattle.rest_bodies.specs.Fields.{fields_of, body_fault, IsFirstBad};
ghost use Rattle.rest_bodies.specs.declared.fields.Shape.{Shape};

/// The key that a refusal names is that of a field of the shape that is at fault, and no field before it is at fault.
pub fn names_first_bad()
    ensures { (shape : Shape) (body : Data) (key : List ℕ) → body_fault shape body ≡ Some key
        → IsFirstBad (fields_of shape) body key }
{}
