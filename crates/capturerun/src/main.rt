// The capture command on the example capture, so that its report is compared with each check.
#![tactic(auto)]

fn main(rt: HostRuntime) {
    capturedesk::from_arguments(&rt);
}
