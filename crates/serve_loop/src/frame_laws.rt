//! Laws of the definitions: functions that do nothing, whose contracts are the laws.
ghost use Rattle.std.specs.Prelude.{◌≡◌, ◌∷◌, [], None, Some, codes};
ghost use Rattle.serve_loop.specs.ClientFrames.{close_frame as closing, pong_frame as ponging};
ghost use Rattle.serve_loop.specs.FrameExamples.{AreExamples};
ghost use Rattle.serve_loop.specs.Frames.{text_frame as sending};

/// A close frame without a code, as RFC 6455 has it (section 5.5.1).
pub fn a_close_frame_without_a_code()
    ensures { closing None (codes "gone") ≡ 136 ∷ 0 ∷ [] }
{}

/// A close frame with the code 1001 and a reason.
pub fn a_close_frame_has_its_code()
    ensures { closing (Some 1001) (codes "gone") ≡ 136 ∷ 6 ∷ 3 ∷ 233 ∷ codes "gone" }
{}

/// The unmasked pong of RFC 6455, section 5.7.
pub fn a_short_pong_frame()
    ensures { ponging (codes "Hello") ≡ 138 ∷ 5 ∷ codes "Hello" }
{}

/// The unmasked text message of RFC 6455, section 5.7.
pub fn a_short_text_frame()
    ensures { sending (codes "Hello") ≡ 129 ∷ 5 ∷ codes "Hello" }
{}

/// Events, each with its text.
pub fn notices_by_example()
    ensures { AreExamples }
{}
