//! Laws of codes and of the order.
ghost use Rattle.std.specs.Prelude.{◌≡◌, ℕ, List, Some};
ghost use Rattle.mj_answer.specs.declared.code.Code.{Code};
ghost use Rattle.mj_answer.specs.declared.diagnostic.Diagnostic.{Diagnostic};
ghost use Rattle.mj_answer.specs.declared.table.FieldRow.{FieldRow};
ghost use Rattle.mj_answer.specs.Codes.{code_number, code_of};
ghost use Rattle.mj_answer.specs.AnswerValues.{MethodRowValue, ClassAnswerValue};
ghost use Rattle.ordered_names.specs.Order.{NameBefore, IsStrictTotalOrder, OneList, OneListByName};
ghost use Rattle.mj_answer.specs.Order.{PlaceBefore, Before};

/// A code is the one with its number.
pub fn code_numbers()
    ensures there { (code : Code) → code_of (code_number code) ≡ Some code }
    ensures back { (number : ℕ) (code : Code) → code_of number ≡ Some code
        → code_number code ≡ number }
{}

/// Places and diagnostics are in strict total orders.
pub fn strict_total_orders()
    ensures places { IsStrictTotalOrder PlaceBefore }
    ensures faults { IsStrictTotalOrder Before }
{}

/// Ascending lists with the same elements are equal.
pub fn one_list()
    ensures faults { OneList Diagnostic Before }
    ensures fields { OneListByName FieldRow (λ row. row.name) }
    ensures methods { OneListByName MethodRowValue (λ row. row.name) }
    ensures classes { OneListByName ClassAnswerValue (λ class. class.name) }
{}
