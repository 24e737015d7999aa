// The arguments that a method uses: those that its definition names; further ones are ignored.
ghost use Rattle.std.specs.Prelude.{◌≡◌};
ghost use Rattle.eval_members.specs.Operands.{operands as operands_of};
ghost use Rattle.eval_values.specs.Seen.{all_seen, AllFine};

use eval_tree::Method;
use eval_values::Value;
use js_store::Strings;

// The first ones of these, as many as a method uses.
fn taken<T>(method: Method, args: &[T]) -> &[T]
    ensures { result.now ≡ operands_of method args.now }
{
    let most = method.most_taken(args.len());
    if most >= args.len() {
        return args;
    }
    &args[..most]
}

// The arguments of a call that its method uses.
#[tactic(auto, using(crate::proofs::Taken::seen_taken, crate::proofs::Taken::fine_taken))]
pub(crate) fn operands<'a, S: Strings>(
    _store: &S,
    method: Method,
    args: &'a [Value<S::Ref>],
) -> &'a [Value<S::Ref>]
    requires { AllFine (S.state _store.now) S.number args.now }
    ensures taken { result.now ≡ operands_of method args.now }
    ensures seen { all_seen (S.state _store.now) S.number result.now ≡ operands_of method
        (all_seen (S.state _store.now) S.number args.now) }
    ensures fine { AllFine (S.state _store.now) S.number result.now }
{
    taken(method, args)
}
