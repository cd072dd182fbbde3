//! The worked banks.

ghost use Rattle.std.specs.Prelude.{◌≡◌, IfOk, IfErr};
ghost use Rattle.bank_tables.specs.Faults.{bank_fault};
ghost use Rattle.form_model.proofs.BankA.{bank_a};
ghost use Rattle.form_model.proofs.BankS.{bank_s};
ghost use Rattle.form_model.proofs.BankE.{bank_e};
ghost use Rattle.form_model.proofs.BankQ.{bank_q};
ghost use Rattle.trial_cases.specs.Rows.{bank_l};

use crate::rows::{rows_a, rows_e, rows_l, rows_q, rows_s};
use bank_tables::{Bank, BankFault, Rows};
use std::alloc::{AllocError, Global};

/// The bank of rows that have no fault.
fn bank_of(alloc: Global, rows: Result<Rows, AllocError>) -> Result<Bank, BankFault>
    requires { IfOk rows (λ r. bank_fault r ≡ None) }
    ensures bank { IfOk result (λ b. rows ≡ Ok b) }
    ensures fault { IfErr result (λ f. f ≡ BankFault.Memory) }
{
    match rows {
        Ok(rows) => Bank::of(alloc, rows),
        Err(AllocError) => Err(BankFault::Memory),
    }
}

/// Bank A.
pub fn bank_a(alloc: Global) -> Result<Bank, BankFault>
    ensures bank { IfOk result (λ b. b ≡ bank_a) }
    ensures fault { IfErr result (λ f. f ≡ BankFault.Memory) }
{
    bank_of(alloc, rows_a(alloc))
}

/// Bank S.
pub fn bank_s(alloc: Global) -> Result<Bank, BankFault>
    ensures bank { IfOk result (λ b. b ≡ bank_s) }
    ensures fault { IfErr result (λ f. f ≡ BankFault.Memory) }
{
    bank_of(alloc, rows_s(alloc))
}

/// Bank E.
pub fn bank_e(alloc: Global) -> Result<Bank, BankFault>
    ensures bank { IfOk result (λ b. b ≡ bank_e) }
    ensures fault { IfErr result (λ f. f ≡ BankFault.Memory) }
{
    bank_of(alloc, rows_e(alloc))
}

/// Bank Q.
pub fn bank_q(alloc: Global) -> Result<Bank, BankFault>
    ensures bank { IfOk result (λ b. b ≡ bank_q) }
    ensures fault { IfErr result (λ f. f ≡ BankFault.Memory) }
{
    bank_of(alloc, rows_q(alloc))
}

/// Bank L.
pub fn bank_l(alloc: Global) -> Result<Bank, BankFault>
    ensures bank { IfOk result (λ b. b ≡ bank_l) }
    ensures fault { IfErr result (λ f. f ≡ BankFault.Memory) }
{
    bank_of(alloc, rows_l(alloc))
}
