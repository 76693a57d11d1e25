//! The name of a run in types: every shard of one run has a type that names what the run is over.

ghost use Rattle.range_ledger.specs.Runs.{Run};

use std::marker::Brand;

/// What a run is over. Each call that extracts picks it.
pub trait RunName {
    ghost run: { Run };
}

impl RunName for Brand {
    ghost use Rattle.std.specs.Prelude.{[], false};

    ghost run = { record {
      listing = record { flags = 0; least = 0; average = 0; greatest = 0; entries = [] };
      base = [];
      shards = 0;
      may = λ _. false;
      tells = false;
    } };
}
