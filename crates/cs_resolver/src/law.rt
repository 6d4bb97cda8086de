//! Bounds that are worked by hand.
ghost use Rattle.std.specs.Prelude.{◌≡◌, ℕ, List, [], ◌∷◌, ◌++◌, codes};
ghost use Rattle.net_base.specs.declared.address.Proto.TheVariants.{Il, Udp};
ghost use Rattle.ndb_index.specs.Index.{near_count};
ghost use Rattle.cs_resolver.specs.Probes.{most_probes};
ghost use Rattle.cs_resolver.specs.Worked.{worked_db, systems, AreOthers};

/// How many tuples are looked at for anna of a small network, however many other systems the database has.
pub fn worked_bounds()
    ensures closest { (names : List (List ℕ)) → AreOthers names
        → near_count (codes "anna") (worked_db ++ systems names) ≡ 3 }
    ensures query { (names : List (List ℕ)) → AreOthers names
        → most_probes (worked_db ++ systems names) (codes "anna") (Il ∷ Udp ∷ []) (codes "net!helix!9fs") ≡ 8 }
{}
