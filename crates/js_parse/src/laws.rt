// Laws of what is spelled.
ghost use Rattle.std.specs.Prelude.{◌≡◌, ◌⊎◌, ℕ, List};
ghost use Rattle.eval_tree.specs.Tree.{Tree};
ghost use Rattle.js_parse.specs.declared.fault.Role.{Role};
ghost use Rattle.js_parse.specs.declared.fault.ParseFault.{ParseFault};
ghost use Rattle.js_parse.specs.Spells.{Spells, Refused};

/// No bytes spell two scripts.
pub fn one_script()
    ensures { (role : Role) (outer : List (List ℕ)) (bytes : List ℕ) (x y : Tree) → Spells role outer bytes x
        → Spells role outer bytes y → x ≡ y }
{}

/// No bytes spell a script and are refused.
pub fn no_refused_script()
    ensures { (role : Role) (outer : List (List ℕ)) (bytes : List ℕ) (x : Tree) (fault : ParseFault)
        → Spells role outer bytes x → Refused role outer bytes fault → ⊥ }
{}

/// No bytes are refused in two ways.
pub fn one_refusal()
    ensures { (role : Role) (outer : List (List ℕ)) (bytes : List ℕ) (x y : ParseFault)
        → Refused role outer bytes x → Refused role outer bytes y → x ≡ y }
{}

/// All bytes spell a script or are refused.
pub fn some_answer()
    ensures { (role : Role) (outer : List (List ℕ)) (bytes : List ℕ)
        → ((x : Tree) × Spells role outer bytes x) ⊎ ((fault : ParseFault) × Refused role outer bytes fault) }
{}
