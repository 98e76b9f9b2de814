// What the engine asks of a program.
ghost use Rattle.std.specs.Prelude.{◌≡◌};
ghost use Rattle.rules.specs.Turns.{exchange};
ghost use Rattle.flowchart.specs.Chart.{exchanged, Noded, program_of};

use crate::program::{Node, Origin, Program};
use expressions::Variable;
use rules::{Channel, Kind, Place, Process};

impl Program {
    // What stands at a line; past the last there is nothing, which is as a STOP.
    pub fn node(&self, line: u16) -> Option<&Node>
        ensures { Noded self.now line result }
    {
        self.lines.get(line as usize).map(|line| &line.node)
    }

    // What a channel is.
    pub fn kind(&self, channel: Channel) -> Kind
        ensures { result ≡ (program_of self.now).kind channel.number }
    {
        self.kinds[channel.number() as usize]
    }

    // Where a process comes from.
    pub fn origin(&self, process: Process) -> Origin
        ensures parent { result.parent.number ≡ (program_of self.now).parent process.number }
        ensures home { result.home ≡ (program_of self.now).home process.number }
    {
        self.origins[process.number() as usize]
    }

    // The variable that an input at the line receives into, and the place that an input or output there leads to;
    // as in the rules, these are variable 0 and the end where there is none.
    pub fn exchange(&self, line: u16) -> (Variable, Place)
        ensures { exchanged result ≡ exchange ((program_of self.now).node line) }
    {
        let first = Variable::new(0).unwrap();
        match self.node(line) {
            Some(Node::Input { variable, to, .. }) => (*variable, *to),
            Some(Node::Output { to, .. }) => (first, *to),
            _ => (first, Place::End),
        }
    }
}
