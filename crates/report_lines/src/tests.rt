use super::*;
use std::test::Fail;

#[test]
fn first_lines_without_a_form(rt: HostRuntime) -> Result<(), Fail> {
    for (text, place) in [
        (&b""[..], 0),
        (
            b"payoff 1\nstatus settled\ndiscount 1/2 2/3\nunit 16\nend\n",
            53,
        ),
        (b"row 0 1 -15\nrow 0 2 empty\nrow 0 3 e\n", 26),
        (b"point 0 0 3 1/2 -7/3\npoint 0 0 3\n", 21),
        (b"stop 0 1 0 none\nstop 0 1 0 -8\nstop 0 1 0 -8/6\n", 30),
        (b"why 0 0 successor 1\nwhy 0 0 successor\n", 20),
        (
            b"why 1 0 deviation 0 1 2\nwhy 1 0 farkas level 2 0 1 gain 1 1 16 1\nwhy 1 0 farkas\n",
            65,
        ),
        (
            b"set 0 1\nentry 0 0 2 2 profile 0 lottery 0:1 punish 0 0\nentry 0 0 2 2 profile 0 lottery 0: punish\n",
            55,
        ),
        (b"entry 0 0 1/2 0 profile 0 lottery 0:1 1:2 punish\nend", 49),
        (b"unit 016\n", 0),
        (b"unit 0\nslack -0\n", 7),
        (b"sweeps  4\n", 0),
        (b"solves 4 \n", 0),
        (
            b"unit 111111111111111111111111111111111111\nunit 1111111111111111111111111111111111111\n",
            42,
        ),
        (b"end\r\n", 0),
    ] {
        assert_eq!(rt; fault_place(text), place);
    }
    Ok(())
}
