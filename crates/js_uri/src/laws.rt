// The law of the URI functions, which a call brings into a proof.
ghost use Rattle.js_uri.specs.Laws.{UndoesEncoding};
ghost use Rattle.js_uri.specs.Sets.{component_keep, uri_keep};

/// Units without an unpaired surrogate, encoded by either function and decoded by
/// `decodeURIComponent`, are as they were. The call does nothing.
pub fn decoding_undoes_encoding()
    ensures component { UndoesEncoding component_keep }
    ensures uri { UndoesEncoding uri_keep }
{}
