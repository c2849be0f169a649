//! A law of records, the contract of a function that does nothing. Whoever needs it at a step calls it there.

ghost use Rattle.sc_view.specs.Values.{Lengths};
ghost use Rattle.sc_view.specs.Views.{ViewMap, HasValuesWithin};
ghost use Rattle.q_session.specs.Records.{HasRecordsWithin, records_of};

/// Values make records of 16 bytes more.
pub fn records_of_values()
    ensures { (l : Lengths) (v : ViewMap) → HasValuesWithin l v → HasRecordsWithin (records_of l) v }
{}
