ghost use Rattle.svg_picture.specs.Laws.{PicturesAreWellFormed, RowsAreApart, BarsOverlapInTime, LanesAreApart};

/// Law: a picture is a well-formed document: each element is closed, and no value or word has a byte that means
/// markup. The law is the contract; the body is empty.
pub fn pictures_are_well_formed()
    ensures { PicturesAreWellFormed }
{}

/// Laws: rows are one below another, and bars share a height if and only if their operations overlap. The laws are
/// the contract; the body is empty.
pub fn bars_overlap_as_operations_do()
    ensures rows { RowsAreApart }
    ensures overlap { BarsOverlapInTime }
{}

/// Law: the lane of a thread ends before that of a higher one begins. The law is the contract; the body is empty.
pub fn svg_lanes_stand_apart()
    ensures { LanesAreApart }
{}
