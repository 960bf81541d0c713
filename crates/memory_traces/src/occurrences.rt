//! Growths that occur: functions that do nothing, whose clauses are the laws.

ghost use Rattle.memory_traces.specs.Example.{EachGrowthOccurs, PairOccurs};

/// Each growth occurs: a trace with two stores, a load that reads the younger, and an AMO of another
/// hart grows step by step from the trace of nothing; then one message performs the younger store in
/// two parts, by which the load has another source and a pair of rule 1 is broken.
#[tactic(auto, using(crate::proofs::Example::each_growth_occurs))]
pub fn each_growth_occurs()
    ensures { EachGrowthOccurs }
{}

/// A pair occurs: with reservations of blocks of 16 bytes an LR, an instruction without operations, the
/// SC with its early store, and an SC that fails retire one after the other.
#[tactic(auto, using(crate::proofs::ExamplePair::pair_occurs))]
pub fn pair_occurs()
    ensures { PairOccurs }
{}
