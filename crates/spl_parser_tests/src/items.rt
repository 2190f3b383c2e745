//! Lists of declarations worked by hand: how many parts they have and where they end, or where their first fault is.

use crate::verdicts::Rule::{self, Arrays, Equals, Items, Names, Parameters, Pointers};
use crate::verdicts::Verdict::{self, Parts, Syntax};
use crate::verdicts::verdict_of;
use std::test::Fail;

/// The kind of list, a text and what it comes to.
static LISTS: [(Rule, &str, Verdict); 16] = [
    (Names, "A , B , C ;", Parts(3, 5)),
    (Names, "A , 5", Syntax(2)),
    (Parameters, "( A , B ) ;", Parts(2, 5)),
    (Parameters, "; VALUE", Parts(0, 0)),
    (Parameters, "( A B )", Syntax(2)),
    (Pointers, "P , Q ;", Parts(2, 3)),
    (Items, "A , B := - 5 , C ;", Parts(3, 8)),
    (Items, "A := B := 5", Parts(1, 3)),
    (Items, "A := + B", Syntax(3)),
    (Arrays, "A ( 0 : 9 ) ;", Parts(1, 6)),
    (
        Arrays,
        "A ( - 1 : N ) , B ( * ) = A := 1 , 2 ;",
        Parts(2, 18),
    ),
    (Arrays, "A ( * ) B", Syntax(4)),
    (Arrays, "A ( 0 : 9 ) := 1 , ;", Syntax(9)),
    (Equals, "N = 5 + 3 - M , K = N ;", Parts(2, 11)),
    (Equals, "N = 5 * 3", Parts(1, 3)),
    (Equals, "N := 5", Syntax(1)),
];

#[test]
fn lists_and_their_first_faults(rt: HostRuntime) -> Result<(), Fail> {
    let alloc = rt.alloc();
    for (rule, text, wanted) in &LISTS {
        assert!(rt; verdict_of(alloc, rule, text, 0)? == *wanted, "{text}");
    }
    Ok(())
}
