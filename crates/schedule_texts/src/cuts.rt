ghost use Rattle.std.specs.Prelude.{◌≡◌, ◌<◌, ◌∷◌, [], true, false, IfSome, IfNone};
ghost use Rattle.std.specs.List.{list_any, before_first, after_first, slice_split};
ghost use Rattle.schedule_texts.specs.Signs.{is_sign};

/// What stands before the first such sign of a text, and what stands behind it.
pub fn cut(text: &str, sign: char) -> Option<(&str, &str)>
    requires { sign < 128 }
    ensures there { IfSome result (λ cut. list_any (is_sign sign) text.now ≡ true) }
    ensures front { IfSome result (λ cut. cut.0.now ≡ before_first (is_sign sign) text.now) }
    ensures back { IfSome result (λ cut. cut.1.now ≡ after_first (is_sign sign) text.now) }
    ensures split { IfSome result (λ cut. slice_split (is_sign sign) text.now
        ≡ cut.0.now ∷ slice_split (is_sign sign) cut.1.now) }
    ensures none { IfNone result (list_any (is_sign sign) text.now ≡ false) }
    ensures whole { IfNone result (slice_split (is_sign sign) text.now ≡ text.now ∷ []) }
{
    text.split_once(sign)
}
