//! The numbers of the causes of traps.

ghost use Rattle.std.specs.Prelude.{◌≡◌};
ghost use Rattle.rv_step.specs.Causes as cause;
ghost use Rattle.rv_step.specs.declared.causes.TheConstants.{MISALIGNED_FETCH, FETCH_FAULT, ILLEGAL_INSTRUCTION};
ghost use Rattle.rv_step.specs.declared.causes.TheConstants.{BREAKPOINT, MISALIGNED_LOAD, LOAD_FAULT, MISALIGNED_STORE};
ghost use Rattle.rv_step.specs.declared.causes.TheConstants.{STORE_FAULT, ENVIRONMENT_CALL};

/// The constants are the numbers of the definitions.
pub fn causes_have_their_numbers()
    ensures misaligned_fetch { MISALIGNED_FETCH ≡ cause.misaligned_fetch }
    ensures fetch_fault { FETCH_FAULT ≡ cause.fetch_fault }
    ensures illegal_instruction { ILLEGAL_INSTRUCTION ≡ cause.illegal_instruction }
    ensures breakpoint { BREAKPOINT ≡ cause.breakpoint }
    ensures misaligned_load { MISALIGNED_LOAD ≡ cause.misaligned_load }
    ensures load_fault { LOAD_FAULT ≡ cause.load_fault }
    ensures misaligned_store { MISALIGNED_STORE ≡ cause.misaligned_store }
    ensures store_fault { STORE_FAULT ≡ cause.store_fault }
    ensures environment_call { ENVIRONMENT_CALL ≡ cause.environment_call }
{}
