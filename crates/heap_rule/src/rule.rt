// The laws of the rule, and of the path on which the string table is searched.
ghost use Rattle.std.specs.Prelude.{◌≡◌, ℕ, List, ◌<◌, length, slice_index, ◌↔◌, Bool, true, IsTrue, Contains};
ghost use Rattle.js_header.specs.declared.form.Form.{Form};
ghost use Rattle.js_header.specs.declared.form.Form.TheVariants.{Flat};
ghost use Rattle.heap_rule.specs.declared.view.View.{View};
ghost use Rattle.heap_rule.specs.Maps.{Has};
ghost use Rattle.heap_rule.specs.Views.{history};
ghost use Rattle.heap_rule.specs.Sound.{IsPossible};
ghost use Rattle.heap_rule.specs.Slots.{Differs, IsShutAt};
ghost use Rattle.heap_rule.specs.SlotTests.{differs, shut};
ghost use Rattle.heap_rule.specs.Paths.{path, path_slot, rank};
ghost use Rattle.heap_rule.specs.Kinds.{KindsKeep, ClaimsInTurn, MakingKeeps, SplittingKeeps, JoiningKeeps, SoundIsLegal};

/// Every kind of step keeps the rule, and the units of every string that is born, wherever it may
/// come; and where the rule holds, the histories of all agents together are legal. One
/// compare-exchange that claims several ids is that many claims in turn. The call does nothing.
pub fn every_step()
    ensures kinds { KindsKeep }
    ensures in_turn { ClaimsInTurn }
    ensures making { MakingKeeps }
    ensures splitting { SplittingKeeps }
    ensures joining { JoiningKeeps }
    ensures legal { SoundIsLegal }
{}

/// The path of a list of units has every slot of the table, each at its rank and no two at one.
/// The call does nothing.
pub fn every_path()
    ensures length { (u : List ℕ) (n : ℕ) → length (path u n) ≡ n }
    ensures inside { (u : List ℕ) (n k : ℕ) → k < n → rank u n k < n }
    ensures place { (u : List ℕ) (n k : ℕ) → k < n → slice_index (path u n) (rank u n k) ≡ k }
    ensures once { (u : List ℕ) (n k l : ℕ) → k < n → l < n → rank u n k ≡ rank u n l → k ≡ l }
    ensures back { (u : List ℕ) (n k : ℕ) → k < n → path_slot u n (rank u n k) ≡ k }
    ensures forth { (u : List ℕ) (n r : ℕ) → r < n → rank u n (path_slot u n r) ≡ r }
{}

/// What an agent knows of the slots of the table. The tests are true exactly where what they test
/// is so; the string in a slot is a fixed Flat, whatever form of it was seen; and units that no
/// slot is left for were never interned. The call does nothing.
pub fn every_slot()
    ensures differs { (v : View) (us : List ℕ) (i : ℕ) → IsTrue (differs v us i) ↔ Differs v us i }
    ensures shut { (v : View) (us : List ℕ) (n : ℕ)
        → IsTrue (shut v us n) ↔ ((k : ℕ) → k < n → IsShutAt v us k) }
    ensures fixed { (v : View) → IsPossible v → (k i : ℕ) (f : Form) → Has v.slots k i → Has v.forms i f
        → (wide : Bool) × (start : ℕ) × (f ≡ Flat wide start true) }
    ensures apart { (v : View) → IsPossible v → (us : List ℕ) → IsTrue (shut v us v.sizes.slots) → (i : ℕ)
        → Contains (history v) (us, i) → ⊥ }
{}
