// Each call by value tells what the call by `&mut` does, and so does any call of a caller's own.
use crate::by_value::{launch_via, set_up_via, step_via};
use crate::calls::{diverter_launch, diverter_set_up, diverter_step};
use crate::told::via;
use rules::Net;

// The envelope of a net of one controller, whose policy allows nothing.
fn one_controller() -> [u8; 37] {
    let mut one = [0; 37];
    one[1] = 35;
    one[2] = 1;
    one[3] = 1;
    one
}

#[test]
fn by_value_as_by_lending(rt: HostRuntime) {
    let one = one_controller();
    let mut held = Net::default();
    let set = set_up_via(held, &one);
    let answer = diverter_set_up(&mut held, &one);
    assert!(rt; answer.number == 0 && set.answer.number == 0 && set.net == held);
    let launched = launch_via(held, 16, &[0, 2, 1, 0]);
    let answer = diverter_launch(&mut held, 16, &[0, 2, 1, 0]);
    assert!(rt; answer.number == 0 && launched.answer.number == 0 && launched.net == held);
    let stepped = step_via(held, 1);
    let answer = diverter_step(&mut held, 1);
    assert!(rt; answer.number == 11 && stepped.answer.number == 11 && stepped.net == held);
}

// Two calls under one lending: the last one's answer, and the net after both.
#[test]
fn a_call_of_ones_own_by_value(rt: HostRuntime) {
    let one = one_controller();
    let mut held = Net::default();
    diverter_set_up(&mut held, &one);
    let before = held;
    diverter_launch(&mut held, 16, &[0, 2, 1, 0]);
    let last = diverter_launch(&mut held, 16, &[0, 2, 1, 0]);
    let told = via(before, |net| {
        diverter_launch(net, 16, &[0, 2, 1, 0]);
        diverter_launch(net, 16, &[0, 2, 1, 0])
    });
    assert!(rt;
        last.number == 0
            && last.fresh.value == 1
            && told.answer.number == 0
            && told.answer.fresh.value == 1
    );
    assert!(rt; told.net == held && told.net != before);
}
