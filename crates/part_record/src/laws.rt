//! Laws of records and their texts.
ghost use Rattle.part_record.specs.Laws.{HasOneText};

/// A text tells one record: what [`text_of`](crate::text_of) and [`put_texts`](crate::put_texts) write of a record,
/// [`record_of`](crate::record_of) reads as that record.
pub fn one_text_each()
    ensures { HasOneText }
{}
