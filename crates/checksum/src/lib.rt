// The checksum that every header, record and entry carries; one or two changed bytes change it.
// Definition and laws; the code is `sum`'s.
#![tactic(auto)]
