//! Laws of codes. Each is the contract of a function that does nothing.
ghost use Rattle.au_codes.specs.Careful.{CarefulIsExact};
ghost use Rattle.au_codes.specs.CellNormal.{CellsKeepNormal};
ghost use Rattle.au_codes.specs.Laws.{CellsKeepNumbers, CellsKeepRows, CellsKeepValues, CodesKeepOrder, RowsStayKnown};
ghost use Rattle.au_codes.specs.TextLaws.{CellsStand, GatheredAreKnown, RanksArePlaces, ShortNeedNoBook, TextCodesKeepOrder};
ghost use Rattle.au_codes.specs.Worked.{PlansWorked, TextsWorked};

/// Values and rows are ordered as their codes are.
pub fn codes_keep_order()
    ensures { CodesKeepOrder }
{}

/// Expressions over cells have the codes of their values.
pub fn cells_keep_values()
    ensures { CellsKeepValues }
{}

/// Plans over cells have the cells of their rows.
pub fn cells_keep_rows()
    ensures { CellsKeepRows }
{}

/// A code that knows the texts of a plan and of its tables knows those of the plan's rows.
pub fn rows_stay_known()
    ensures { RowsStayKnown }
{}

/// The numbers of typed plans over cells fit 128 bits exactly where those of the plans do.
pub fn cells_keep_numbers()
    ensures { CellsKeepNumbers }
{}

/// The normal form over cells is the cells of the normal form.
pub fn cells_keep_normal()
    ensures { CellsKeepNormal }
{}

/// The careful value of an expression is its value, exactly where its numbers fit 128 bits.
pub fn careful_is_exact()
    ensures { CarefulIsExact }
{}

/// The code of texts keeps their order.
pub fn text_codes_keep_order()
    ensures { TextCodesKeepOrder }
{}

/// The number of a short text needs no book.
pub fn short_need_no_book()
    ensures { ShortNeedNoBook }
{}

/// A text of a book stands at the place of its rank.
pub fn ranks_are_places()
    ensures { RanksArePlaces }
{}

/// Cells stand for the values that they were made of.
pub fn cells_stand()
    ensures { CellsStand }
{}

/// A book of gathered texts knows what they were gathered from.
pub fn gathered_are_known()
    ensures { GatheredAreKnown }
{}

/// Worked numbers of texts.
pub fn texts_worked()
    ensures { TextsWorked }
{}

/// A worked plan.
pub fn plans_worked()
    ensures { PlansWorked }
{}
