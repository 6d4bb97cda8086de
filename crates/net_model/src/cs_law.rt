//! Laws of the connection server's list.
ghost use Rattle.std.specs.Prelude.{◌≡◌, ◌≢◌, ◌∷◌, [], List, ℕ, AllPairs, codes};
ghost use Rattle.net_base.specs.Cs.{Lines, Refused, cs_list};
ghost use Rattle.net_model.specs.CsExample.{anna_gets};
ghost use Rattle.net_model.specs.CsOrder.{OnFirst};
ghost use Rattle.net_base.specs.Networks.{own_networks};
ghost use Rattle.net_base.specs.declared.address.Proto.{Proto};
ghost use Rattle.net_base.specs.Ndb.{NdbPair};

/// No line of an answer stands twice, whatever the database says twice.
pub fn no_line_stands_twice()
    ensures { (db : List (List (List NdbPair))) (me : List ℕ) (nets : List Proto) (text : List ℕ)
        (lines : List (List ℕ))
        → AllPairs (λ net other. net ≢ other) nets
        → cs_list db me nets text ≡ Lines lines
        → AllPairs (λ line later. line ≢ later) lines }
{}

/// Within each net, addresses on the asker's own networks stand before all others.
pub fn own_networks_come_first()
    ensures { (db : List (List (List NdbPair))) (me : List ℕ) (nets : List Proto) (text : List ℕ)
        (lines : List (List ℕ))
        → AllPairs (λ net other. net ≢ other) nets
        → cs_list db me nets text ≡ Lines lines
        → OnFirst (own_networks me db) lines }
{}

/// What a system of a small database is answered, by computation.
pub fn worked_queries()
    ensures helix { anna_gets (codes "net!helix!9fs")
        ≡ Lines (codes "/net/il/clone 135.104.9.31!17008"
        ∷ codes "/net/il/clone 10.0.0.31!17008" ∷ []) }
    ensures closest_server { anna_gets (codes "net!$auth!9fs")
        ≡ Lines (codes "/net/il/clone 135.104.9.31!17008"
        ∷ codes "/net/il/clone 10.0.0.31!17008" ∷ []) }
    ensures domain { anna_gets (codes "udp!helix.example.com!echo")
        ≡ Lines (codes "/net/udp/clone 135.104.9.31!7"
        ∷ codes "/net/udp/clone 10.0.0.31!7" ∷ []) }
    ensures any_address { anna_gets (codes "il!*!9fs")
        ≡ Lines (codes "/net/il/clone *!17008" ∷ []) }
    ensures leading_zeros { anna_gets (codes "net!135.104.050.009!0564")
        ≡ Lines (codes "/net/il/clone 135.104.50.9!564"
        ∷ codes "/net/udp/clone 135.104.50.9!564" ∷ []) }
    ensures no_query { anna_gets (codes "net!!9fs") ≡ Refused 1 }
    ensures no_net { anna_gets (codes "tcp!$x!9fs") ≡ Refused 2 }
    ensures no_host { anna_gets (codes "net!nobody!nosuch") ≡ Refused 3 }
    ensures no_service { anna_gets (codes "net!helix!nosuch") ≡ Refused 4 }
    ensures no_value { anna_gets (codes "il!$x!nosuch") ≡ Refused 5 }
{}
