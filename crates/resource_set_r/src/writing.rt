//! The text of R.
ghost use Rattle.std.specs.Prelude.{◌≡◌, ◌<◌, ◌∷◌, ◌++◌, [], length, codes, IfOk, OnOk};
ghost use Rattle.std.specs.List.{All, filter};
ghost use Rattle.std.specs.List.Sorted.{IsStrictlyIncreasing};
ghost use Rattle.json.specs.Token.{key, string};
ghost use Rattle.serde_json.specs.Data.{array, member, no_members, number, object, unsigned};
ghost use Rattle.flux_defs.specs.Jobs.{vertex_of};
ghost use Rattle.json_written.specs.Texts.{readable};
ghost use Rattle.json_written.specs.Tokens.{Adds, value_tokens, rest_tokens};
ghost use Rattle.idset_text.specs.Idsets.{idset_text};
ghost use Rattle.resource_graph.specs.NamedGraph.{path_text};
ghost use Rattle.resource_set_r.specs.Rows.{is_other_than, type_called, elements_of};
ghost use Rattle.resource_set_r.specs.WrittenR.{children_data, element_data, elements_data, texts_data, mode_of};
ghost use Rattle.resource_set_r.specs.WrittenR.{claim_data, claims_data, execution_of, nodelist, r_text, RisesWithin};
ghost use Rattle.resource_set_r.specs.WrittenRTokens.{ids_tokens, quantity_tokens, scheduling_tokens};

use crate::given::given_of;
use crate::rows::{
    Children, Element, Types, elements_of, hosts_of, is_of_type, ranks_of, types_of,
};
use flux_defs::{Claim, Job, List, Text, Vertex};
use idset_text::{write_hostlist, write_idset};
use json::Writer;
use json_written::{put_number, put_text, readable};
use resource_graph::Graph;
use std::alloc::{AllocError, Global};

/// Writes a key with an idset.
fn put_idset(
    alloc: Global,
    writer: &mut Writer,
    name: &str,
    ids: &List<u32>,
) -> Result<(), AllocError>
    requires { IsStrictlyIncreasing ids.now }
    ensures { OnOk result (Adds writer.old writer.new (key name.now ∷ string (readable (idset_text ids.now)) ∷ [])) }
{
    let text = write_idset(alloc, ids)?;
    put_text(writer, name, readable(text.bytes()))
}

/// Writes a key with an idset, where there are ids.
fn put_ids(
    alloc: Global,
    writer: &mut Writer,
    name: &str,
    ids: &List<u32>,
) -> Result<(), AllocError>
    requires { IsStrictlyIncreasing ids.now }
    ensures { OnOk result (Adds writer.old writer.new (ids_tokens name.now ids.now)) }
{
    if ids.is_empty() {
        return Ok(());
    }
    put_idset(alloc, writer, name, ids)
}

/// Writes the ids of cores and of gpus.
fn put_children(alloc: Global, writer: &mut Writer, children: &Children) -> Result<(), AllocError>
    requires cores { IsStrictlyIncreasing children.now.cores }
    requires gpus { IsStrictlyIncreasing children.now.gpus }
    ensures { OnOk result (Adds writer.old writer.new (value_tokens (children_data children.now))) }
{
    writer.begin_object()?;
    put_ids(alloc, writer, "core", &children.cores)?;
    put_ids(alloc, writer, "gpu", &children.gpus)?;
    writer.end_object()?;
    Ok(())
}

/// Writes an element of `R_lite`.
fn put_element(alloc: Global, writer: &mut Writer, element: &Element) -> Result<(), AllocError>
    requires { RisesWithin element.now }
    ensures { OnOk result (Adds writer.old writer.new (value_tokens (element_data element.now))) }
{
    writer.begin_object()?;
    writer.key("children")?;
    put_children(alloc, writer, &element.children)?;
    put_idset(alloc, writer, "rank", &element.ranks)?;
    writer.end_object()?;
    Ok(())
}

/// Writes the elements, and closes their list.
fn put_elements(alloc: Global, writer: &mut Writer, elements: &[Element]) -> Result<(), AllocError>
    requires { All RisesWithin elements.now }
    ensures { OnOk result (Adds writer.old writer.new (rest_tokens (elements_data elements.now))) }
{
    'elements: for element in elements {
        put_element(alloc, writer, element)?;
    }
    writer.end_array()?;
    Ok(())
}

/// Writes a text.
fn put_one(writer: &mut Writer, text: &Text) -> Result<(), AllocError>
    ensures { OnOk result (Adds writer.old writer.new (string (readable text.now) ∷ [])) }
{
    writer.string(readable(text.bytes()))
}

/// Writes the texts, and closes their list.
fn put_texts(writer: &mut Writer, texts: &[Text]) -> Result<(), AllocError>
    ensures { OnOk result (Adds writer.old writer.new (rest_tokens (texts_data texts.now))) }
{
    'texts: for text in texts {
        put_one(writer, text)?;
    }
    writer.end_array()?;
    Ok(())
}

/// What a claim does.
fn mode_of(claim: &Claim) -> &'static str
    ensures { result.now ≡ mode_of claim.now }
{
    match claim {
        Claim::Take { .. } => "take",
        Claim::Hold { .. } => "hold",
        Claim::Pass { .. } => "pass",
    }
}

/// Writes how much a claim takes.
fn put_quantity(writer: &mut Writer, claim: &Claim) -> Result<(), AllocError>
    ensures { OnOk result (Adds writer.old writer.new (quantity_tokens claim.now)) }
{
    match claim {
        Claim::Take { quantity, .. } => put_number(writer, "quantity", *quantity),
        Claim::Hold { .. } => Ok(()),
        Claim::Pass { .. } => Ok(()),
    }
}

/// Writes a key with the path of a vertex.
fn put_path(
    alloc: Global,
    writer: &mut Writer,
    graph: &Graph,
    vertex: u32,
) -> Result<(), AllocError>
    requires { vertex < length graph.now.resources.vertices }
    ensures { OnOk result
        (Adds writer.old writer.new (key (codes "path") ∷ string (readable (path_text graph.now vertex)) ∷ [])) }
{
    let path = graph.path_of(alloc, vertex)?;
    put_text(writer, "path", readable(path.bytes()))
}

/// Writes a claim.
fn put_claim(
    alloc: Global,
    writer: &mut Writer,
    graph: &Graph,
    claim: &Claim,
) -> Result<(), AllocError>
    requires { vertex_of claim.now < length graph.now.resources.vertices }
    ensures { OnOk result (Adds writer.old writer.new (value_tokens (claim_data graph.now claim.now))) }
{
    writer.begin_object()?;
    put_text(writer, "mode", mode_of(claim))?;
    put_path(alloc, writer, graph, claim.vertex())?;
    put_quantity(writer, claim)?;
    writer.end_object()?;
    Ok(())
}

/// Writes the claims, and closes their list.
fn put_claims(
    alloc: Global,
    writer: &mut Writer,
    graph: &Graph,
    claims: &[Claim],
) -> Result<(), AllocError>
    requires { All (λ c. vertex_of c < length graph.now.resources.vertices) claims.now }
    ensures { OnOk result (Adds writer.old writer.new (rest_tokens (claims_data graph.now claims.now))) }
{
    'claims: for claim in claims {
        put_claim(alloc, writer, graph, claim)?;
    }
    writer.end_array()?;
    Ok(())
}

/// Writes the claims at a key.
fn put_scheduling(
    alloc: Global,
    writer: &mut Writer,
    graph: &Graph,
    claims: &[Claim],
) -> Result<(), AllocError>
    requires { All (λ c. vertex_of c < length graph.now.resources.vertices) claims.now }
    ensures { OnOk result (Adds writer.old writer.new (key (codes "scheduling") ∷ value_tokens
        (object (member (codes "claims") (array (claims_data graph.now claims.now)) no_members)))) }
{
    writer.key("scheduling")?;
    writer.begin_object()?;
    writer.key("claims")?;
    writer.begin_array()?;
    put_claims(alloc, writer, graph, claims)?;
    writer.end_object()?;
    Ok(())
}

/// Writes the claims at a key, where there are some.
fn put_others(
    alloc: Global,
    writer: &mut Writer,
    graph: &Graph,
    claims: &[Claim],
) -> Result<(), AllocError>
    requires { All (λ c. vertex_of c < length graph.now.resources.vertices) claims.now }
    ensures { OnOk result (Adds writer.old writer.new (scheduling_tokens graph.now claims.now)) }
{
    if claims.is_empty() {
        return Ok(());
    }
    put_scheduling(alloc, writer, graph, claims)
}

/// Whether the claim is on a vertex of another type.
fn is_other(vertices: &[Vertex], types: Types, claim: Claim) -> bool
    ensures { result ≡ is_other_than vertices.now types.node types.core types.gpu claim }
{
    let vertex = claim.vertex();
    if vertex as usize >= vertices.len() {
        return false;
    }
    !(is_of_type(vertices, types.node, vertex)
        || is_of_type(vertices, types.core, vertex)
        || is_of_type(vertices, types.gpu, vertex))
}

/// The claims on vertices of other types.
fn others_of(
    alloc: Global,
    vertices: &[Vertex],
    types: Types,
    claims: &[Claim],
) -> Result<Vec<Claim>, AllocError>
    ensures { IfOk result
        (λ cs. cs.items ≡ filter (is_other_than vertices.now types.node types.core types.gpu) claims.now) }
{
    let mut others = Vec::new(alloc);
    'claims: for claim in claims {
        if is_other(vertices, types, *claim) {
            others.push(*claim)?;
        }
    }
    Ok(others)
}

/// What is written of a job in `execution`, but for its start and end.
#[derive(Drop)]
struct Resources {
    elements: Vec<Element>,
    nodelist: List<Text>,
}

/// What the claims are written as in `execution`.
fn resources_of(
    alloc: Global,
    graph: &Graph,
    types: Types,
    claims: &[Claim],
) -> Result<Resources, AllocError>
    requires core { types.core ≡ type_called graph.now.resources (codes "core") }
    requires gpu { types.gpu ≡ type_called graph.now.resources (codes "gpu") }
    ensures elements { IfOk result (λ r. r.elements.items ≡ elements_of graph.now.resources claims.now) }
    ensures rising { IfOk result (λ r. All RisesWithin r.elements.items) }
    ensures nodelist { IfOk result (λ r. r.nodelist ≡ nodelist graph.now claims.now) }
{
    let given = given_of(alloc, graph, claims)?;
    let ranks = ranks_of(alloc, graph, given.items())?;
    let elements = elements_of(alloc, graph, types, given.items(), ranks.items())?;
    let hosts = hosts_of(alloc, graph, ranks.items())?;
    let nodelist = write_hostlist(alloc, &hosts)?;
    Ok(Resources { elements, nodelist })
}

/// Writes the value at `execution`.
fn put_execution(
    alloc: Global,
    writer: &mut Writer,
    resources: &Resources,
    start: u64,
    end: u64,
) -> Result<(), AllocError>
    requires { All RisesWithin resources.now.elements.items }
    ensures { OnOk result (Adds writer.old writer.new
        (value_tokens (execution_of resources.now.elements.items resources.now.nodelist start end))) }
{
    writer.begin_object()?;
    writer.key("R_lite")?;
    writer.begin_array()?;
    put_elements(alloc, writer, resources.elements.as_slice())?;
    put_number(writer, "expiration", end)?;
    writer.key("nodelist")?;
    writer.begin_array()?;
    put_texts(writer, resources.nodelist.items())?;
    put_number(writer, "starttime", start)?;
    writer.end_object()?;
    Ok(())
}

/// The resource set R of a job (RFC 20, version 1): compact JSON, with the keys of each object in byte order. A rank is
/// in it where something at or below its node has a claim or lies at or below a held vertex; its children are the ids
/// of the cores and gpus of which that is so. Neighbouring ranks with equal children share an element, and the hosts
/// stand in rising order of rank. Claims on vertices of other types than `node`, `core` and `gpu` follow as
/// `scheduling`, where there are some. A claim past the graph counts for nothing, and a name that is no UTF-8, which no
/// graph of a file has, is written as the empty text.
pub fn write_r(alloc: Global, graph: &Graph, job: &Job) -> Result<Text, AllocError>
    ensures { IfOk result (λ text. text ≡ r_text graph.now job.now) }
{
    let claims = job.claims.items();
    let types = types_of(graph);
    let resources = resources_of(alloc, graph, types, claims)?;
    let others = others_of(alloc, graph.vertices().items(), types, claims)?;
    let mut writer = Writer::new(Vec::new(alloc));
    writer.begin_object()?;
    writer.key("execution")?;
    put_execution(alloc, &mut writer, &resources, job.start, job.end)?;
    put_others(alloc, &mut writer, graph, others.as_slice())?;
    put_number(&mut writer, "version", 1)?;
    writer.end_object()?;
    Ok(Text::of_vec(writer.into_inner()))
}
