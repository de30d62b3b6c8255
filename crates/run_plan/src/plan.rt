//! The plan of a graph.

ghost use Rattle.std.specs.Prelude.{◌≡◌, ◌≢◌, ◌⊎◌, ◌+◌, ◌^◌, ◌<◌, ◌≤◌, ℕ, List, [], IsTrue, IfOk, IfErr, IfSome, Some, None, Ok, is_some, length, option_to_list, slice_index_or, false};
ghost use Rattle.std.specs.Option.{option_map, option_map_or};
ghost use Rattle.splices_flat.specs.FileSet.{bytes_of, entries_of};
ghost use Rattle.dag_graph.specs.Graph.{rank_in};
ghost use Rattle.rescue_file.specs.declared.fault.RescueFault.TheVariants as rescue;
ghost use Rattle.run_plan.specs.declared.fault.PlanFault.TheVariants.{Memory, InRescue};
ghost use Rattle.run_plan_node.specs.Commands.{phase_command, is_expandable, starts_child, uses_whole_run};
ghost use Rattle.run_plan.specs.Digest.{digest_of};
ghost use Rattle.run_plan.specs.Plan.{node_at, count_of, has_parents_below, IsRankedBy};
ghost use Rattle.run_plan.specs.PlanAnswers.{Gives, Fails};
ghost use Rattle.run_plan.specs.Submitted.{plan_at, first_plan_fault, rescued_in};
ghost use Rattle.run_plan.specs.Specs.{specs_from, final_spec, is_listed};
ghost use Rattle.run_plan.specs.Planned.{IsPlanned, marked_sources};

use crate::digest::digest_of;
use crate::fault::PlanFault;
use crate::submitted::{fault_in, job_at};
use dag_graph::Graph;
use node_machine::Key;
use rescue_file::{RescueFault, read_rescue};
use run_plan_node::{Categories, ChildCommand, NodeSpec, PhaseFacts};
use splices_flat::{FileSet, FlatNode};
use std::alloc::{AllocError, Global};
use std::marker::Model;

/// The nodes by their numbers, and the FINAL node, which has the next number.
pub struct Plan {
    graph: Graph,
    nodes: Vec<NodeSpec>,
    final_node: Option<NodeSpec>,
    digest: [u8; 32],
    always_post: bool,
    /// what stands for the FINAL node where there is none
    absent: NodeSpec,
}

// Each function that drops a value calls this; a derived drop would be in each, part by part.
impl Drop for Plan {
    fn drop(self) {
        let Plan {
            graph: _,
            nodes: _,
            final_node: _,
            digest: _,
            always_post: _,
            absent: _,
        } = self;
    }
}

impl Model for Plan {
    ghost use Rattle.std.specs.Prelude.{◌≡◌};
    ghost use Rattle.run_plan_node.specs.Node.{no_node};
    ghost use Rattle.run_plan.specs.Plan.{Plan as PlanValue};
    ghost use Rattle.run_plan.specs.Planned.{IsPlanned};

    ghost Value = { PlanValue };

    ghost view = { λ a. record { nodes = a.nodes.items; final_node = a.final_node; graph = a.graph; digest = a.digest; always_post = a.always_post } };

    ghost invariant = { λ a. IsPlanned (record { nodes = a.nodes.items; final_node = a.final_node; graph = a.graph; digest = a.digest; always_post = a.always_post }) × (a.absent ≡ no_node) };
}

impl Plan {
    /// The plan of a graph whose submit files stand in a set, and of a rescue file, if there is one:
    /// the nodes that it names are done from the start. With `always_post` the POST script of a node
    /// runs after a PRE script that failed, too.
    ///
    /// Each text of a job is expanded once here, for the last attempt that is allowed and the
    /// greatest launch number, so that no fault is left for the run.
    ///
    /// # Errors
    /// The graph is handed back, with the first fault. For each node in plan order, a NOOP apart:
    /// its submit file is not in the set (`MissingFile`) or can't be read (`InSubmit`); then of its
    /// texts, in the order universe, executable, arguments, input, output, error, initialdir,
    /// environment, the first that can't be expanded or split (`InMacro`), a universe that there is
    /// not (`BadUniverse`), or a missing or empty executable (`NoExecutable`). Then the first line
    /// of the rescue file that can't be read (`InRescue`). `Memory` where memory is refused.
    ///
    /// After `MissingFile` the caller may add the file and ask again.
    pub fn build(
        alloc: Global,
        graph: Graph,
        files: &FileSet,
        rescue: Option<&[u8]>,
        always_post: bool,
    ) -> Result<Plan, (Graph, PlanFault)>
        ensures plan { IfOk result (λ plan. plan_at always_post graph (Some (bytes_of files.now)) (option_map (λ b. b.now) rescue.entry)
            (digest_of graph.dag.top (entries_of files.now) (option_map (λ b. b.now) rescue.entry)) ≡ Ok plan) }
        ensures refused { IfErr result (λ e. (e.0 ≡ graph)
            × Fails e.1 (plan_at always_post graph (Some (bytes_of files.now)) (option_map (λ b. b.now) rescue.entry)
            (digest_of graph.dag.top (entries_of files.now) (option_map (λ b. b.now) rescue.entry)))) }
    {
        Plan::of_parts(alloc, graph, Some(files), rescue, always_post)
    }

    /// The plan of a graph, with no submit file read: each job is started by the path of its submit
    /// file. The nodes that the rescue file names, if there is one, are done from the start. With
    /// `always_post` the POST script of a node runs after a PRE script that failed, too.
    ///
    /// # Errors
    /// The graph is handed back, with the first line of the rescue file that can't be read
    /// (`InRescue`), or `Memory` where memory is refused.
    pub fn build_bare(
        alloc: Global,
        graph: Graph,
        rescue: Option<&[u8]>,
        always_post: bool,
    ) -> Result<Plan, (Graph, PlanFault)>
        ensures plan { IfOk result (λ plan. plan_at always_post graph None (option_map (λ b. b.now) rescue.entry)
            (digest_of graph.dag.top [] (option_map (λ b. b.now) rescue.entry)) ≡ Ok plan) }
        ensures refused { IfErr result (λ e. (e.0 ≡ graph)
            × Fails e.1 (plan_at always_post graph None (option_map (λ b. b.now) rescue.entry)
            (digest_of graph.dag.top [] (option_map (λ b. b.now) rescue.entry)))) }
    {
        Plan::of_parts(alloc, graph, None, rescue, always_post)
    }

    fn of_parts(
        alloc: Global,
        graph: Graph,
        files: Option<&FileSet>,
        rescue: Option<&[u8]>,
        always_post: bool,
    ) -> Result<Plan, (Graph, PlanFault)>
        ensures plan { IfOk result (λ plan. plan_at always_post graph (option_map (λ set. bytes_of set.now) files.entry) (option_map (λ b. b.now) rescue.entry)
            (digest_of graph.dag.top (option_map_or (λ set. entries_of set.now) files.entry []) (option_map (λ b. b.now) rescue.entry)) ≡ Ok plan) }
        ensures refused { IfErr result (λ e. (e.0 ≡ graph)
            × Fails e.1 (plan_at always_post graph (option_map (λ set. bytes_of set.now) files.entry) (option_map (λ b. b.now) rescue.entry)
            (digest_of graph.dag.top (option_map_or (λ set. entries_of set.now) files.entry []) (option_map (λ b. b.now) rescue.entry)))) }
    {
        let absent = match NodeSpec::none(alloc) {
            Ok(absent) => absent,
            Err(_) => return Err((graph, PlanFault::Memory)),
        };
        let digest = digest_of(graph.flat().top(), files, rescue);
        match nodes_of(alloc, &graph, files, rescue, always_post) {
            Ok(nodes) => Ok(Plan {
                graph,
                nodes: nodes.ordinary,
                final_node: nodes.final_node,
                digest,
                always_post,
                absent,
            }),
            Err(fault) => Err((graph, fault)),
        }
    }

    /// The number of ordinary nodes.
    pub fn count(&self) -> u32
        ensures is { result ≡ count_of self.now }
        ensures room { result + 2 < 2 ^ 32 }
    {
        let _ = self.graph.flat().nodes();
        self.nodes.len() as u32
    }

    /// Whether there is a FINAL node.
    pub fn has_final(&self) -> bool
        ensures { result ≡ is_some self.now.final_node }
    {
        self.final_node.is_some()
    }

    /// The graph that was handed in.
    pub fn graph(&self) -> &Graph
        ensures is { result.now ≡ self.now.graph }
        // The plan is made from it, with some jobs and marks, and the texts of its jobs expand.
        ensures made { IsPlanned self.now }
        // The plan has its ordinary nodes.
        ensures count { count_of self.now ≡ length self.now.graph.dag.nodes }
        // Its order ranks each parent below its children.
        ensures ranked { IsRankedBy (rank_in self.now.graph.order) self.now }
    {
        let _ = self.graph.order();
        &self.graph
    }

    /// The ordinary nodes in plan order.
    pub fn nodes(&self) -> &[NodeSpec]
        ensures { result.now ≡ self.now.nodes }
    {
        self.nodes.as_slice()
    }

    /// SHA-256 of what the plan was made from: the path of the DAG file, each file of the set with
    /// its name, in the order of the bytes of the names (of none for a bare plan), and the rescue
    /// file. Each of these texts comes after its length, of eight bytes; before the rescue file
    /// is a byte 1, and a byte 0 where there is none. Whether POST always runs is no part of it.
    pub fn digest(&self) -> &[u8; 32]
        ensures { result.now ≡ self.now.digest }
    {
        &self.digest
    }

    /// Whether a POST script runs after a PRE script that failed, too, as `build` was asked.
    pub fn always_post(&self) -> bool
        ensures { result ≡ self.now.always_post }
    {
        self.always_post
    }

    /// The node of this number; that after the last is the FINAL node. Where there is none, a node
    /// without a name stands for it, which is done.
    pub fn spec(&self, node: u32) -> &NodeSpec
        requires { node ≤ count_of self.now }
        ensures is { result.now ≡ node_at self.now node }
        ensures parents { IsTrue (has_parents_below (count_of self.now) (node_at self.now node)) }
        // Its category is one of those that have a limit.
        ensures category { IfSome (node_at self.now node).category (λ place. place < length self.now.graph.dag.categories) }
        // Each of its phases has a command in each attempt that is allowed (`run_plan_node::laws::commands_exist`).
        ensures sound { IsTrue (is_expandable (node_at self.now node)) }
    {
        let index = node as usize;
        if index < self.nodes.len() {
            return &self.nodes[index];
        }
        match &self.final_node {
            Some(spec) => spec,
            None => &self.absent,
        }
    }

    /// Whether a word of the node's commands is known in a whole run alone: `$DAG_STATUS`,
    /// `$FAILED_COUNT` or `$JOBID` in a script, or the launch number in a text of its job.
    pub fn whole_run(&self, node: u32) -> bool
        requires { node ≤ count_of self.now }
        ensures { result ≡ uses_whole_run (node_at self.now node) }
    {
        self.spec(node).uses_whole_run()
    }

    /// The command that starts the child of a phase, with all words filled in: the words of a
    /// script by the facts, the texts of a job for the attempt and its launch number.
    ///
    /// # Errors
    /// `Memory` where memory is refused, and nothing else: `build` has expanded the texts.
    pub fn command(
        &self,
        alloc: Global,
        key: &Key,
        facts: &PhaseFacts,
    ) -> Result<ChildCommand, PlanFault>
        requires known { key.now.node ≤ count_of self.now }
        requires child { IsTrue (starts_child (node_at self.now key.now.node) key.now.phase) }
        requires allowed { key.now.attempt ≤ (node_at self.now key.now.node).course.retries }
        ensures command { IfOk result (λ command. phase_command (node_at self.now key.now.node) key.now.attempt key.now.phase facts.now ≡ Ok command) }
        ensures refused { IfErr result (λ fault. fault ≡ Memory) }
    {
        let spec = self.spec(key.node);
        // What is read is known to be in its range.
        let _launch = facts.launch;
        match spec.command(alloc, key.attempt, key.phase, facts) {
            Ok(command) => Ok(command),
            Err(fault) => Err(fault_in(alloc, spec.name(), fault)),
        }
    }
}

/// What the files say of the nodes.
#[derive(Drop)]
struct Nodes {
    ordinary: Vec<NodeSpec>,
    final_node: Option<NodeSpec>,
}

/// What the files say of all nodes. The rescue file is read first, since its marks go into the
/// nodes; its fault comes after theirs.
fn nodes_of(
    alloc: Global,
    graph: &Graph,
    files: Option<&FileSet>,
    rescue: Option<&[u8]>,
    always_post: bool,
) -> Result<Nodes, PlanFault>
    ensures { (digest : List ℕ) → Gives (λ nodes. record { nodes = nodes.ordinary.items; final_node = nodes.final_node; graph = graph.now; digest = digest; always_post = always_post }) result
        (plan_at always_post graph.now (option_map (λ set. bytes_of set.now) files.entry) (option_map (λ b. b.now) rescue.entry) digest) }
{
    let rescued = rescued_in(alloc, graph, rescue);
    let count = graph.flat().nodes().len();
    let marks = marks_in(alloc, count, &rescued)?;
    let ordinary = specs_of(alloc, graph, files, marks.as_slice(), always_post)?;
    let final_node = final_of(alloc, files, graph.flat().final_node(), always_post)?;
    let _numbers = rescued?;
    Ok(Nodes {
        ordinary,
        final_node,
    })
}

/// The nodes that a rescue file marks as done.
fn rescued_in(alloc: Global, graph: &Graph, rescue: Option<&[u8]>) -> Result<Vec<u32>, PlanFault>
    ensures { Gives (λ numbers. numbers.items) result (rescued_in graph.now.dag (option_map (λ b. b.now) rescue.entry)) }
{
    let Some(bytes) = rescue else {
        return Ok(Vec::new(alloc));
    };
    match read_rescue(alloc, bytes, graph) {
        Ok(numbers) => Ok(numbers),
        Err(fault) => Err(in_rescue(fault)),
    }
}

/// A fault of a rescue file.
fn in_rescue(fault: RescueFault) -> PlanFault
    ensures { (result ≡ Memory) ⊎ ((fault ≢ rescue.Memory) × (result ≡ InRescue fault)) }
{
    match fault {
        RescueFault::Memory => PlanFault::Memory,
        RescueFault::BadLine(line) => PlanFault::InRescue(RescueFault::BadLine(line)),
        RescueFault::UnknownNode(line) => PlanFault::InRescue(RescueFault::UnknownNode(line)),
        RescueFault::FinalDone(line) => PlanFault::InRescue(RescueFault::FinalDone(line)),
        RescueFault::NotThere(line) => PlanFault::InRescue(RescueFault::NotThere(line)),
    }
}

/// Which of this many nodes are marked. Where the rescue file has a fault, none needs to be known.
fn marks_in(
    alloc: Global,
    count: usize,
    rescued: &Result<Vec<u32>, PlanFault>,
) -> Result<Vec<bool>, AllocError>
    ensures { IfOk result (λ marks. IfOk rescued.now (λ numbers. (n : ℕ) → n < count → slice_index_or marks.items n false ≡ is_listed numbers.items n)) }
{
    match rescued {
        Ok(numbers) => marks_of(alloc, count, numbers.as_slice()),
        Err(_) => Ok(Vec::new(alloc)),
    }
}

/// Which of this many numbers stand in a list.
fn marks_of(alloc: Global, count: usize, numbers: &[u32]) -> Result<Vec<bool>, AllocError>
    ensures { IfOk result (λ marks. (n : ℕ) → n < count → slice_index_or marks.items n false ≡ is_listed numbers.now n) }
{
    let mut marks = vec![in alloc; false; count]?;
    for number in numbers {
        let place = *number as usize;
        if place < marks.len() {
            marks[place] = true;
        }
    }
    Ok(marks)
}

/// What the files say of each ordinary node.
fn specs_of(
    alloc: Global,
    graph: &Graph,
    files: Option<&FileSet>,
    marks: &[bool],
    always_post: bool,
) -> Result<Vec<NodeSpec>, PlanFault>
    ensures specs { IfOk result (λ specs. specs.items ≡ specs_from graph.now.dag (marked_sources always_post (option_map (λ set. bytes_of set.now) files.entry) marks.now) 0 graph.now.dag.nodes) }
    ensures faults { Gives (λ _. tt) result (first_plan_fault (option_map (λ set. bytes_of set.now) files.entry) graph.now.dag.nodes) }
{
    let categories = Categories::new(alloc, graph.flat().categories())?;
    let mut specs = Vec::new(alloc);
    for (number, node) in graph.flat().nodes().iter().enumerate() {
        let job = job_at(alloc, files, node)?;
        let parents = graph.parents(number as u32);
        let marked = marks.get(number).copied().unwrap_or(false);
        let Ok(spec) = NodeSpec::new(alloc, parents, job, marked, &categories, node, always_post)
        else {
            return Err(PlanFault::Memory);
        };
        specs.push(spec)?;
    }
    Ok(specs)
}

/// What the files say of the FINAL node, if there is one.
fn final_of(
    alloc: Global,
    files: Option<&FileSet>,
    node: Option<&FlatNode>,
    always_post: bool,
) -> Result<Option<NodeSpec>, PlanFault>
    ensures spec { IfOk result (λ spec. spec ≡ option_map (λ n. final_spec (marked_sources always_post (option_map (λ set. bytes_of set.now) files.entry) []) n.now) node.entry) }
    ensures fault { Gives (λ _. tt) result (first_plan_fault (option_map (λ set. bytes_of set.now) files.entry) (option_to_list (option_map (λ n. n.now) node.entry))) }
{
    let Some(node) = node else {
        return Ok(None);
    };
    let job = job_at(alloc, files, node)?;
    let categories = Categories::new(alloc, &[])?;
    match NodeSpec::new(alloc, &[], job, false, &categories, node, always_post) {
        Ok(spec) => Ok(Some(spec)),
        Err(_) => Err(PlanFault::Memory),
    }
}
